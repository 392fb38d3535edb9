//! Where texts are printed.
ghost use Rattle.std.specs.Prelude.{◌≡◌, [], ℕ, Bool, List, OnErr, OnOk, Option, true};
ghost use Rattle.edge_ports.specs.{Counts.Rose, Printouts.Printout, Printouts.Prints, Told.GaveAll, Told.GavePrefix};

use crate::Failed;

/// Where texts are printed, piece by piece. A text begins with `begin`, and `finish` says whether the outside took all
/// of it. Printing does not fail: what comes after a call of the outside that failed is let go, and `finish` tells.
pub trait Printer {
    /// The bytes that the outside was given so far, where it tells them.
    ghost given: { Self → Option (List ℕ) };

    /// How often the outside failed. It rises by one with each text that was not given whole, and stands still at the
    /// last number of 64 bits.
    ghost faults: { Self → ℕ };

    /// Whether the last call of the outside failed.
    ghost last_failed: { Self → Bool };

    /// The name of the loan of the room that the bytes go to, if they go to one that is borrowed. No call changes it.
    ghost loan: { Self → ℕ };

    /// The text that was printed since it began, and what was told then.
    ghost printout: { Self → Printout };

    /// Begins a text. What was printed before and is not finished is let go.
    fn begin(&mut self)
        ensures { printout self.new ≡ record {
          began = record { given = given self.old; faults = faults self.old; loan = loan self.old };
          text = [];
        } };

    /// Adds a piece to the text.
    fn print(&mut self, piece: &[u8])
        ensures { Prints (printout self.old) (printout self.new) piece.now };

    /// Ends the text: all of it is given, or a first part of it and the outside failed.
    fn finish(&mut self) -> Result<(), Failed>
        ensures ok { OnOk result (GaveAll (printout self.old).began.given (given self.new) (printout self.old).text) }
        ensures failed { OnErr result
            (GavePrefix (printout self.old).began.given (given self.new) (printout self.old).text) }
        ensures cause { OnErr result (Rose (printout self.old).began.faults (faults self.new)) }
        ensures last { OnErr result (last_failed self.new ≡ true) }
        ensures loan { loan self.new ≡ (printout self.old).began.loan }
        ensures calm { OnOk result (faults self.new ≡ (printout self.old).began.faults) };
}

/// Prints a whole text.
pub fn print_all<P: Printer>(printer: &mut P, bytes: &[u8]) -> Result<(), Failed>
    ensures ok { OnOk result (GaveAll (P.given printer.old) (P.given printer.new) bytes.now) }
    ensures failed { OnErr result (GavePrefix (P.given printer.old) (P.given printer.new) bytes.now) }
    ensures cause { OnErr result (Rose (P.faults printer.old) (P.faults printer.new)) }
    ensures last { OnErr result (P.last_failed printer.new ≡ true) }
    ensures loan { P.loan printer.new ≡ P.loan printer.old }
    ensures calm { OnOk result (P.faults printer.new ≡ P.faults printer.old) }
{
    printer.begin();
    printer.print(bytes);
    printer.finish()
}
