//! A device of which one call fails.

ghost use Rattle.std.specs.Prelude.{◌≡◌, ◌≤◌, ◌<◌, ◌⊎◌, ◌↔◌, ℕ, Some, true, false, OnOk, OnErr, IsErrOf};
ghost use Rattle.disk.specs.Moments.{seen, wrote, synced};
ghost use Rattle.disk.specs.Cause.{HasCause};

use crate::{Device, DiskFault, SECTOR};

/// A call of a device that may fail.
#[derive(Clone, Copy, Debug, PartialEq, Eq)]
pub enum CallKind {
    /// [`Device::read`], or a whole [`Device::read_run`].
    Read,
    /// [`Device::write`].
    Write,
    /// [`Device::sync`].
    Sync,
}

/// Which call is to fail: the one of this kind that comes after `before` others of that kind. Once
/// it has failed, none is.
#[derive(Clone, Copy)]
struct Plan {
    kind: CallKind,
    before: Option<u64>,
}

impl Plan {
    ghost use Rattle.disk.specs.Faulty.{fails_next, after};

    /// Begins a call of this kind. Whether it is to fail.
    fn begin(&mut self, kind: CallKind) -> bool
        ensures fails { result ≡ fails_next self.old kind }
        ensures after { self.new ≡ after self.old kind }
    {
        if kind != self.kind {
            return false;
        }
        let fails = self.before == Some(0);
        self.before = match self.before {
            Some(before) => before.checked_sub(1),
            None => None,
        };
        fails
    }
}

/// A device of which one call returns `Fault`, counts it, and does nothing else. Every other call
/// is the inner device's, and this device keeps its word if the inner one does.
///
/// A read or a write of a sector that the device does not have is none of its calls. Each sector of
/// a [`Device::read_run`] is a read.
#[derive(Drop)]
pub struct FaultDevice<D: Device> {
    inner: D,
    plan: Plan,
}

impl<D: Device> FaultDevice<D> {
    ghost use Rattle.disk.specs.Faulty.{inner_of, plan_of};

    /// A device over this one. Of its calls of this kind, which are numbered from 0, the one of
    /// this number fails.
    pub fn new(inner: D, kind: CallKind, number: u64) -> FaultDevice<D>
        ensures inner { inner_of result ≡ inner }
        ensures plan { plan_of result ≡ record { kind = kind; before = Some number } }
    {
        let plan = Plan {
            kind,
            before: Some(number),
        };
        FaultDevice { inner, plan }
    }

    /// The inner device, as it is now.
    pub fn into_inner(self) -> D
        ensures { result ≡ inner_of self }
    {
        self.inner
    }
}

impl<D: Device> Device for FaultDevice<D> {
    ghost use Rattle.disk.specs.Faulty.{inner_of, plan_of, fails_next, faulty_failures, GoesByPlan};

    ghost keeps_word = { D.keeps_word };

    ghost size = { λ device. D.size (inner_of device) };

    ghost failed = { λ device. faulty_failures (D.failed (inner_of device)) (plan_of device) };

    ghost history = { λ device. D.history (inner_of device) };

    fn sectors(&self) -> u32 {
        self.inner.sectors()
    }

    fn failures(&self) -> u64 {
        let own = u64::from(self.plan.before.is_none());
        self.inner.failures().saturating_add(own)
    }

    /// The read that fails leaves the buffer as it was.
    fn read(&mut self, n: u32, content: &mut [u8; SECTOR]) -> Result<(), DiskFault>
        ensures ok { D.keeps_word → OnOk result
            (content.new ≡ seen (D.history (inner_of self.old)).now n) }
        // If it fails
        ensures range { IsErrOf result DiskFault.Range ↔ (D.size (inner_of self.old) ≤ n) }
        ensures untouched { IsErrOf result DiskFault.Range → content.new ≡ content.old }
        // It only reads
        ensures history { D.history (inner_of self.new) ≡ D.history (inner_of self.old) }
        ensures size { D.size (inner_of self.new) ≡ D.size (inner_of self.old) }
        // Whether it fails
        ensures cause { HasCause (faulty_failures (D.failed (inner_of self.old)) (plan_of self.old))
            (faulty_failures (D.failed (inner_of self.new)) (plan_of self.new)) result }
        ensures plan { n < D.size (inner_of self.old)
            → GoesByPlan D.failed CallKind.Read self.old self.new result }
        ensures fault { n < D.size (inner_of self.old)
            → fails_next (plan_of self.old) CallKind.Read ≡ true → content.new ≡ content.old }
        ensures no_call { D.size (inner_of self.old) ≤ n → plan_of self.new ≡ plan_of self.old }
    {
        if n < self.inner.sectors() && self.plan.begin(CallKind::Read) {
            return Err(DiskFault::Fault);
        }
        self.inner.read(n, content)
    }

    /// The write that fails does not land.
    fn write(&mut self, n: u32, content: &[u8; SECTOR]) -> Result<(), DiskFault>
        ensures ok { D.keeps_word → OnOk result (D.history (inner_of self.new)
            ≡ wrote (record { target = n; content = content.now })
            (D.history (inner_of self.old))) }
        // If it fails
        ensures err { D.keeps_word → OnErr result
            ((D.history (inner_of self.new) ≡ D.history (inner_of self.old))
            ⊎ (D.history (inner_of self.new) ≡ wrote (record { target = n; content = content.now })
            (D.history (inner_of self.old)))) }
        ensures range { IsErrOf result DiskFault.Range ↔ (D.size (inner_of self.old) ≤ n) }
        ensures untouched { IsErrOf result DiskFault.Range
            → D.history (inner_of self.new) ≡ D.history (inner_of self.old) }
        // However it ends
        ensures size { D.size (inner_of self.new) ≡ D.size (inner_of self.old) }
        ensures cause { HasCause (faulty_failures (D.failed (inner_of self.old)) (plan_of self.old))
            (faulty_failures (D.failed (inner_of self.new)) (plan_of self.new)) result }
        // Whether it fails
        ensures plan { n < D.size (inner_of self.old)
            → GoesByPlan D.failed CallKind.Write self.old self.new result }
        ensures no_call { D.size (inner_of self.old) ≤ n → plan_of self.new ≡ plan_of self.old }
    {
        if n < self.inner.sectors() && self.plan.begin(CallKind::Write) {
            return Err(DiskFault::Fault);
        }
        self.inner.write(n, content)
    }

    /// The sync that fails fixes nothing.
    fn sync(&mut self) -> Result<(), DiskFault>
        ensures ok { D.keeps_word → OnOk result
            (D.history (inner_of self.new) ≡ synced (D.history (inner_of self.old))) }
        // If it fails
        ensures err { D.keeps_word → OnErr result
            (D.history (inner_of self.new) ≡ D.history (inner_of self.old)) }
        ensures not_range { IsErrOf result DiskFault.Range → ⊥ }
        // However it ends
        ensures size { D.size (inner_of self.new) ≡ D.size (inner_of self.old) }
        ensures cause { HasCause (faulty_failures (D.failed (inner_of self.old)) (plan_of self.old))
            (faulty_failures (D.failed (inner_of self.new)) (plan_of self.new)) result }
        // Whether it fails
        ensures plan { GoesByPlan D.failed CallKind.Sync self.old self.new result }
    {
        if self.plan.begin(CallKind::Sync) {
            return Err(DiskFault::Fault);
        }
        self.inner.sync()
    }

    ghost holds_sectors = { λ keeps device n there. D.holds_sectors keeps (inner_of device) n there };
}
