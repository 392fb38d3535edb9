//! Where schemas begin.

ghost use Rattle.std.specs.Prelude.{◌≡◌};
ghost use Rattle.pas_tree.specs.{SchemaPlaces.first_of_schema, SchemaTrees.schema_tree};

use crate::schemas::Schema;

/// The first token of a schema.
pub fn first_of_schema(schema: &Schema) -> u32
    ensures { result ≡ first_of_schema (schema_tree schema.now) }
{
    match schema {
        Schema::Packed(packed) => packed.packed,
        Schema::Unpacked(unpacked) => unpacked.word,
    }
}
