//! How the calls of a device in memory go.
ghost use Rattle.std.specs.Prelude.{◌≡◌, ◌≢◌, ◌<◌, None, Some, IfOk, IsOk, IsErr};
ghost use Rattle.capnp_device.specs.Device.{Counts, HasFailed, last_count, calls_after};

use crate::device::DeviceFault;

/// How many bytes a call may move, which call fails, and how many have failed.
#[derive(Drop)]
pub struct CallPlan {
    /// The most bytes that a call may move.
    pub chunk: usize,
    /// How many calls work before the chosen one fails; none once no call is to fail.
    pub calls_before_failure: Option<u64>,
    /// How many calls have failed.
    pub failures: u64,
    ghost moves_some: { 0 < chunk },
}

impl CallPlan {
    /// Each call may move `chunk` bytes. Where `calls_before_failure` is some n, the first n calls
    /// work, the next one fails, and those after it work again.
    ///
    /// # Conditions
    ///
    /// `chunk` is not 0.
    pub fn new(chunk: usize, calls_before_failure: Option<u64>) -> Self
        requires { 0 < chunk }
        ensures chunk { result.chunk ≡ chunk }
        ensures chosen { result.calls_before_failure ≡ calls_before_failure }
        ensures failures { result.failures ≡ 0 }
    {
        CallPlan {
            chunk,
            calls_before_failure,
            failures: 0,
        }
    }

    /// Begins a call, and answers how many bytes it may move.
    ///
    /// Refused where the chosen call is due or the count stands at its last value; the failure is counted.
    pub fn begin(&mut self) -> Result<usize, DeviceFault>
        ensures room { IfOk result (λ n. n ≡ self.old.chunk) }
        ensures chosen { self.old.calls_before_failure ≡ Some 0 → IsErr result }
        ensures others { self.old.calls_before_failure ≢ Some 0 → self.old.failures < last_count →
            IsOk result }
        ensures counted { Counts self.old.failures self.new.failures result }
        ensures chunk { self.new.chunk ≡ self.old.chunk }
        ensures next { self.old.failures < last_count →
            self.new.calls_before_failure ≡ calls_after self.old.calls_before_failure }
    {
        if self.failures == u64::MAX {
            return Err(DeviceFault);
        }
        match self.calls_before_failure {
            Some(0) => {
                self.calls_before_failure = None;
                self.failures += 1;
                return Err(DeviceFault);
            }
            Some(calls) => self.calls_before_failure = Some(calls - 1),
            None => {}
        }
        Ok(self.chunk)
    }

    /// Counts a call that had begun, and failed after that.
    pub fn fail(&mut self) -> DeviceFault
        ensures counted { HasFailed self.old.failures self.new.failures }
        ensures chunk { self.new.chunk ≡ self.old.chunk }
        ensures chosen { self.new.calls_before_failure ≡ self.old.calls_before_failure }
    {
        self.failures = self.failures.saturating_add(1);
        DeviceFault
    }
}
