/// How long things last, in units of the deployment's clock.
#[derive(Clone, Copy, Debug, PartialEq, Eq)]
pub struct Config {
    /// A lock older than this may be granted to another function.
    pub lock: u64,
    /// A ping unanswered for longer than this makes its session late.
    pub beat: u64,
}
