//! What the row of a variant part says.

/// A variant part of a record type (6.4.3.3), with the fields of its row.
#[derive(Clone, Copy, Debug, PartialEq, Eq)]
pub struct VariantPart {
    /// Whether it has a tag cell without a tag field.
    pub hidden: bool,
    /// The place of the tag's cell in the record.
    pub offset: u32,
    /// The cells of its variants, which stand after the tag's.
    pub cells: u32,
    /// The list of the values that choose its variants.
    pub values: u32,
    /// The number of the record or the variant that holds it.
    pub holder: u32,
}
