//! What a request is answered.

/// A reply, or that the declared sets are not those that the request needs; then nothing was written, and its issuer
/// makes a new attempt with other sets (Thomson et al. 2012, section 3.2.1: the check of a dependent transaction's
/// predicted sets).
#[derive(Clone, Copy, Debug, PartialEq, Eq)]
pub enum Answer<Reply> {
    /// What the application tells, after its writes.
    Reply(Reply),
    /// The declared sets aren't those that the request needs.
    Changed,
}
