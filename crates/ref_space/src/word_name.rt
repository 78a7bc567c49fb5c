//! How a word that an object holds is named.

use ref_base::ObjNo;

/// Which word of which object: that of a field, or that of its referent.
#[derive(Clone, Copy)]
pub struct WordName {
    /// The number of the object.
    pub no: ObjNo,
    /// The field, or none for the referent.
    pub field: Option<usize>,
}
