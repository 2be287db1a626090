use fk_base::Bytes;

/// A message in a lane as contracts see it: under the number that its push was given. A lane keeps a slip
/// in its place.
#[derive(Drop)]
pub struct Letter {
    pub number: u64,
    pub bytes: Bytes,
}
