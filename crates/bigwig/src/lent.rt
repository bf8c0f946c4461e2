//! What the program is lent.
/// What is read and served, kept, drawn and printed on: the files, the journals, the door, the keys, the output, and the count of
/// steps.
#[derive(Drop)]
pub struct Lent<'f, 'j, 'd, 'k, 'o, 's, F, J, D, K, W, S> {
    pub files: &'f mut F,
    pub journals: &'j mut J,
    pub door: &'d mut D,
    pub keys: &'k mut K,
    pub out: &'o mut W,
    pub steps: &'s mut S,
}
