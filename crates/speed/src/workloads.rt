//! The programs that are measured. Each of them uses up the steps of a run.

/// Assignments and no call.
const LOOP: &str = "program work;
var i, n, s: integer;
begin
  n := maxint;
  i := 0;
  s := 0;
  while i < n do
    begin i := i + 1; s := s + i mod 7 end
end.";

/// A sieve and an insertion sort of numbers that lie near their places, again and again.
const ARRAY: &str = "program work;
var a: array [1..1000] of integer;
  i, j, x: integer;
  found: Boolean;
begin
  while true do
    begin
      for i := 2 to 1000 do a[i] := 1;
      for i := 2 to 31 do
        if a[i] = 1 then
          begin
            j := i * i;
            while j <= 1000 do
              begin a[j] := 0; j := j + i end
          end;
      for i := 1 to 1000 do a[i] := i + i * 37 mod 20;
      for i := 2 to 1000 do
        begin
          x := a[i];
          j := i - 1;
          found := false;
          while not found do
            if j = 0 then found := true
            else if a[j] <= x then found := true
            else begin a[j + 1] := a[j]; j := j - 1 end;
          a[j + 1] := x
        end
    end
end.";

/// Calls of a procedure, one after the other.
const FLAT: &str = "program work;
var x: integer;
procedure q; begin x := x + 1 end;
begin
  x := 0;
  while true do q
end.";

/// Calls of a function, each an actual parameter of the next.
const FUNCTION: &str = "program work;
var x: integer;
function f(n: integer): integer; begin f := n + 1 end;
begin
  x := 0;
  while true do x := f(f(x))
end.";

/// A recursion to 80,000 open calls, the program's own counting, again and again.
const DEEP: &str = "program work;
procedure d(n: integer); begin if n > 1 then d(n - 1) end;
begin
  while true do d(79999)
end.";

/// The source of the workload of this name.
pub(crate) fn source_of(name: &str) -> Option<&'static str> {
    match name {
        "loop" => Some(LOOP),
        "array" => Some(ARRAY),
        "flat" => Some(FLAT),
        "function" => Some(FUNCTION),
        "deep" => Some(DEEP),
        _ => None,
    }
}
