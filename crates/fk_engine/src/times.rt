/// What the clock shows, and the deployment's times: a lock passes on after `lock`, a ping is late
/// after `beat`.
#[derive(Clone, Copy)]
pub struct Times {
    pub clock: u64,
    pub lock: u64,
    pub beat: u64,
}
