//! A device over a file.

ghost use Rattle.std.specs.Prelude.{◌≡◌, ◌≢◌, ◌≤◌, ◌<◌, ◌+◌, ◌-◌, ◌*◌, ◌⊎◌, ◌↔◌, ℕ, [], length, slice_index_or, Some, None, Err, false, IsTrue, IfOk, IfSome, OnOk, OnErr, IsErrOf, IsNone};
ghost use Rattle.disk.specs.Moments.{at_rest};
ghost use Rattle.std.specs.IoError.{error_kind};
ghost use Rattle.disk.specs.Cause.{IsCounted, HasCause};
ghost use Rattle.disk.specs.Counts.{Remembers};

use crate::run::Run;
use crate::{CallKind, Counts, Device, DiskFault, Failure, SECTOR};
use std::alloc::Global;
use std::fs::{File, OpenOptions, TryLockError};
use std::io;
use std::io::{ErrorKind, Seek, SeekFrom};
use std::os::unix::fs::{FileExt, FileTypeExt, OpenOptionsExt};
use std::path::AsPath;
use std::rt::Files;

/// The mode of a new file: a volume has the files of all its users, so only its owner may read it.
const OWNER_ONLY: u32 = 0o600;

/// A file or a block device, sector by sector.
///
/// No contract can say what a file holds: this device never claims to keep its word, and its
/// history is empty.
///
/// It gathers what is written to neighbouring sectors, and hands it to the file in one write:
/// before a sector that is no neighbour is written, and in a sync. Until then a crash loses it, as
/// it may lose all that was written since a sync, and a device that is dropped drops it. A read
/// returns what was gathered. If the file fails to take it, it stays gathered: the call that failed
/// did nothing, what was written before is read as before, and the next hand-over offers it again.
///
/// It holds a lock on the file from before its first change of it until it is dropped: an exclusive
/// one if it may write, and otherwise one that is shared only with others that do not write. The
/// lock is advisory: it keeps out only those that ask for one.
///
/// It counts its calls, and remembers why the last one that failed did so.
#[derive(Drop)]
pub struct FileDevice {
    file: File,
    sectors: u32,
    is_whole: bool,
    may_write: bool,
    failures: u64,
    counts: Counts,
    last_failure: Option<Failure>,
    run: Run,
    ghost remembered: { IsNone last_failure ↔ (failures ≡ 0) },
}

impl FileDevice {
    ghost use Rattle.disk.specs.File.{file_size, file_failures, file_is_whole, file_may_write, file_counts, file_last_failure, gathered, BeginsAnew, IsUnopened, IsUncalled};
    ghost use Rattle.disk.specs.Run.{newest_in};

    /// Opens an existing file, or a block device, for reading and writing.
    ///
    /// Its sectors are the whole ones of its length; [`FileDevice::is_whole`] says whether bytes
    /// are left over. Of a file with more than 2^32 - 1 sectors the first 2^32 - 1 are taken.
    ///
    /// Fails with `Memory` for lack of memory, and otherwise with `Open`: also if another has a
    /// lock on the file.
    pub fn open<R: Files<File = File>, P: AsPath>(
        rt: &R,
        alloc: Global,
        path: P,
    ) -> Result<FileDevice, DiskFault>
        ensures failures { IfOk result (λ device. file_failures device ≡ 0) }
        ensures uncalled { IfOk result (λ device. IsUncalled device) }
        ensures gathered { IfOk result (λ device. (n : ℕ) → gathered device n ≡ None) }
        ensures may_write { IfOk result (λ device. IsTrue (file_may_write device)) }
        ensures err { OnErr result (IsUnopened result) }
    {
        let run = Run::new(alloc)?;
        let file = OpenOptions::new()
            .read(true)
            .write(true)
            .open(rt, path)
            .map_err(refusal)?;
        file.try_lock().map_err(lock_refusal)?;
        FileDevice::over(file, run, true)
    }

    /// Opens an existing file only for reading, so that it need not be one that may be written;
    /// otherwise as [`FileDevice::open`] does. Every write fails.
    ///
    /// Fails with `Memory` for lack of memory, and otherwise with `Open`: also if another that may
    /// write has a lock on the file.
    pub fn open_to_read<R: Files<File = File>, P: AsPath>(
        rt: &R,
        alloc: Global,
        path: P,
    ) -> Result<FileDevice, DiskFault>
        ensures failures { IfOk result (λ device. file_failures device ≡ 0) }
        ensures uncalled { IfOk result (λ device. IsUncalled device) }
        ensures gathered { IfOk result (λ device. (n : ℕ) → gathered device n ≡ None) }
        ensures may_write { IfOk result (λ device. file_may_write device ≡ false) }
        ensures err { OnErr result (IsUnopened result) }
    {
        let run = Run::new(alloc)?;
        let file = File::open(rt, path).map_err(refusal)?;
        file.try_lock_shared().map_err(lock_refusal)?;
        FileDevice::over(file, run, false)
    }

    /// Opens a file for reading and writing, creates it if it does not exist, and sets its length
    /// to `sectors` sectors. What it held up to there stays, and what is new is zero. Only its
    /// owner may read or write a new file; an existing one keeps its mode. A block device has to
    /// have this length already.
    ///
    /// Fails with `Memory` for lack of memory, and otherwise with `Open`: also if the length cannot
    /// be set, and if another has a lock on the file, which is then as it was.
    pub fn create<R: Files<File = File>, P: AsPath>(
        rt: &R,
        alloc: Global,
        path: P,
        sectors: u32,
    ) -> Result<FileDevice, DiskFault>
        ensures size { IfOk result (λ device. file_size device ≡ sectors) }
        ensures whole { IfOk result (λ device. IsTrue (file_is_whole device)) }
        ensures failures { IfOk result (λ device. file_failures device ≡ 0) }
        ensures uncalled { IfOk result (λ device. IsUncalled device) }
        ensures gathered { IfOk result (λ device. (n : ℕ) → gathered device n ≡ None) }
        ensures may_write { IfOk result (λ device. IsTrue (file_may_write device)) }
        // If it fails
        ensures err { OnErr result (IsUnopened result) }
    {
        let run = Run::new(alloc)?;
        let mut file = OpenOptions::new()
            .mode(OWNER_ONLY)
            .read(true)
            .write(true)
            .create(true)
            .open(rt, path)
            .map_err(refusal)?;
        file.try_lock().map_err(lock_refusal)?;
        set_len(&mut file, u64::from(sectors) * SECTOR as u64)?;
        Ok(FileDevice {
            file,
            sectors,
            is_whole: true,
            may_write: true,
            failures: 0,
            counts: Counts::none(),
            last_failure: None,
            run,
        })
    }

    /// The device over an open file, of the sectors that it has.
    fn over(mut file: File, run: Run, may_write: bool) -> Result<FileDevice, DiskFault>
        ensures failures { IfOk result (λ device. file_failures device ≡ 0) }
        ensures uncalled { IfOk result (λ device. IsUncalled device) }
        ensures gathered { IfOk result (λ device. (n : ℕ) → gathered device n ≡ newest_in run n) }
        ensures may_write { IfOk result (λ device. file_may_write device ≡ may_write) }
        ensures err { OnErr result (IsUnopened result) }
    {
        // The metadata of a block device has no length.
        let len = file.seek(SeekFrom::End(0)).map_err(refusal)?;
        let sector = SECTOR as u64;
        Ok(FileDevice {
            file,
            sectors: u32::try_from(len / sector).unwrap_or(u32::MAX),
            is_whole: len % sector == 0,
            may_write,
            failures: 0,
            counts: Counts::none(),
            last_failure: None,
            run,
        })
    }

    /// Whether the file's length was a whole number of sectors when it was opened.
    pub fn is_whole(&self) -> bool
        ensures { result ≡ file_is_whole self.now }
    {
        self.is_whole
    }

    /// How often each call came.
    pub fn counts(&self) -> Counts
        ensures { result ≡ file_counts self.now }
    {
        self.counts
    }

    /// The last call that failed, and why.
    pub fn last_failure(&self) -> Option<Failure>
        ensures value { result ≡ file_last_failure self.now }
        ensures none { IsNone result ↔ (file_failures self.now ≡ 0) }
    {
        self.last_failure
    }

    /// Counts a failure of this call, and remembers it.
    fn fail(&mut self, call: CallKind, kind: ErrorKind) -> DiskFault
        ensures fault { result ≡ DiskFault.Fault }
        ensures counted { IsCounted (file_failures self.old) (file_failures self.new) }
        ensures last { file_last_failure self.new ≡ Some (record { call = call; kind = kind }) }
        // What stays
        ensures counts { file_counts self.new ≡ file_counts self.old }
        ensures size { file_size self.new ≡ file_size self.old }
        ensures may_write { file_may_write self.new ≡ file_may_write self.old }
        ensures gathered { (n : ℕ) → gathered self.new n ≡ gathered self.old n }
    {
        self.failures = self.failures.saturating_add(1);
        self.last_failure = Some(Failure { call, kind });
        DiskFault::Fault
    }

    /// Hands the file what was gathered, within this call. If the file fails, it stays gathered.
    fn hand_over(&mut self, call: CallKind) -> Result<(), DiskFault>
        ensures ok { OnOk result ((n : ℕ) → gathered self.new n ≡ None) }
        ensures begins { OnOk result (BeginsAnew self.new) }
        // If it fails
        ensures err { OnErr result ((n : ℕ) → gathered self.new n ≡ gathered self.old n) }
        ensures not_range { IsErrOf result DiskFault.Range → ⊥ }
        // However it ends
        ensures size { file_size self.new ≡ file_size self.old }
        ensures may_write { file_may_write self.new ≡ file_may_write self.old }
        ensures counts { file_counts self.new ≡ file_counts self.old }
        ensures cause { HasCause (file_failures self.old) (file_failures self.new) result }
        ensures remembers { Remembers call
            (file_last_failure self.old) (file_last_failure self.new) result }
    {
        match self
            .file
            .write_all_at(self.run.bytes(), offset_of(self.run.first()))
        {
            Ok(()) => {
                self.run.clear();
                Ok(())
            }
            Err(error) => Err(self.fail(call, error.kind())),
        }
    }
}

impl Device for FileDevice {
    ghost use Rattle.disk.specs.File.{file_size, file_failures, file_may_write, file_last_failure, gathered, KeepsOrHandsOver, Notes};

    ghost keeps_word = { ⊥ };

    ghost size = { λ device. file_size device };

    ghost failed = { λ device. file_failures device };

    ghost history = { λ _. at_rest (λ _. []) };

    fn sectors(&self) -> u32 {
        self.sectors
    }

    fn failures(&self) -> u64 {
        self.failures
    }

    /// A sector that was gathered is read as it was written last, and without the file.
    fn read(&mut self, n: u32, content: &mut [u8; SECTOR]) -> Result<(), DiskFault>
        ensures newest { IfSome (gathered self.old n) (λ newest. n < file_size self.old
            → (result ≡ Ok tt) × (content.new ≡ newest)) }
        // It only reads
        ensures gathered { (m : ℕ) → gathered self.new m ≡ gathered self.old m }
        // If it fails
        ensures range { IsErrOf result DiskFault.Range ↔ (file_size self.old ≤ n) }
        ensures untouched { IsErrOf result DiskFault.Range → content.new ≡ content.old }
        // However it ends
        ensures size { file_size self.new ≡ file_size self.old }
        ensures may_write { file_may_write self.new ≡ file_may_write self.old }
        ensures cause { HasCause (file_failures self.old) (file_failures self.new) result }
        ensures noted { Notes CallKind.Read self.old self.new result }
    {
        if n >= self.sectors {
            return Err(DiskFault::Range);
        }
        self.counts.add(CallKind::Read);
        if let Some(newest) = self.run.get(n) {
            *content = *newest;
            return Ok(());
        }
        match self
            .file
            .read_exact_at(content.as_mut_slice(), offset_of(n))
        {
            Ok(()) => Ok(()),
            Err(error) => Err(self.fail(CallKind::Read, error.kind())),
        }
    }

    /// The file is read once, and it is one read of the counts. A sector that was gathered is read
    /// as it was written last.
    fn read_run(&mut self, first: u32, contents: &mut [[u8; SECTOR]]) -> Result<(), DiskFault>
        ensures newest { OnOk result ((i : ℕ) → i < length contents.old
            → IfSome (gathered self.old (first + i))
            (λ newest. slice_index_or contents.new i [] ≡ newest)) }
        // It only reads
        ensures gathered { (m : ℕ) → gathered self.new m ≡ gathered self.old m }
        // If it fails
        ensures range { IsErrOf result DiskFault.Range
            ↔ (file_size self.old - first < length contents.old) }
        ensures untouched { IsErrOf result DiskFault.Range → contents.new ≡ contents.old }
        // However it ends
        ensures size { file_size self.new ≡ file_size self.old }
        ensures may_write { file_may_write self.new ≡ file_may_write self.old }
        ensures cause { HasCause (file_failures self.old) (file_failures self.new) result }
        ensures noted { Notes CallKind.Read self.old self.new result }
    {
        if contents.len() > self.sectors.saturating_sub(first) as usize {
            return Err(DiskFault::Range);
        }
        self.counts.add(CallKind::Read);
        if let Err(error) = self
            .file
            .read_exact_at(contents.as_flattened_mut(), offset_of(first))
        {
            return Err(self.fail(CallKind::Read, error.kind()));
        }
        self.run.copy_over(first, contents);
        Ok(())
    }

    /// A sector that is written is gathered, and the others stay so, or were handed to the file. If
    /// that failed the sector is not written; no sector is if the file may not be written.
    fn write(&mut self, n: u32, content: &[u8; SECTOR]) -> Result<(), DiskFault>
        ensures newest { OnOk result (gathered self.new n ≡ Some content.now) }
        ensures others { (m : ℕ) → m ≢ n → KeepsOrHandsOver self.old self.new m }
        // If it fails
        ensures err { OnErr result ((m : ℕ) → gathered self.new m ≡ gathered self.old m) }
        ensures range { IsErrOf result DiskFault.Range ↔ (file_size self.old ≤ n) }
        ensures may_not { n < file_size self.old → file_may_write self.old ≡ false
            → (result ≡ Err DiskFault.Fault) × (file_last_failure self.new
            ≡ Some (record { call = CallKind.Write; kind = ErrorKind.PermissionDenied })) }
        // However it ends
        ensures size { file_size self.new ≡ file_size self.old }
        ensures may_write { file_may_write self.new ≡ file_may_write self.old }
        ensures cause { HasCause (file_failures self.old) (file_failures self.new) result }
        ensures noted { Notes CallKind.Write self.old self.new result }
    {
        if n >= self.sectors {
            return Err(DiskFault::Range);
        }
        self.counts.add(CallKind::Write);
        if !self.may_write {
            return Err(self.fail(CallKind::Write, ErrorKind::PermissionDenied));
        }
        if !self.run.takes(n) {
            self.hand_over(CallKind::Write)?;
        }
        self.run.put(n, content);
        Ok(())
    }

    /// Nothing is gathered after a sync that succeeded.
    fn sync(&mut self) -> Result<(), DiskFault>
        ensures handed { OnOk result ((n : ℕ) → gathered self.new n ≡ None) }
        ensures kept { (n : ℕ) → KeepsOrHandsOver self.old self.new n }
        // If it fails
        ensures not_range { IsErrOf result DiskFault.Range → ⊥ }
        // However it ends
        ensures size { file_size self.new ≡ file_size self.old }
        ensures may_write { file_may_write self.new ≡ file_may_write self.old }
        ensures cause { HasCause (file_failures self.old) (file_failures self.new) result }
        ensures noted { Notes CallKind.Sync self.old self.new result }
    {
        self.counts.add(CallKind::Sync);
        self.hand_over(CallKind::Sync)?;
        match self.file.sync_data() {
            Ok(()) => Ok(()),
            Err(error) => Err(self.fail(CallKind::Sync, error.kind())),
        }
    }

    ghost holds_sectors = { λ never. absurd never };
}

// the offset of sector n
fn offset_of(n: u32) -> u64
    ensures { result ≡ n * SECTOR }
{
    u64::from(n) * SECTOR as u64
}

/// Sets the length of a file. A block device keeps its own, which has to be this one.
fn set_len(file: &mut File, len: u64) -> Result<(), DiskFault>
    ensures { OnErr result ((result ≡ Err DiskFault.Memory) ⊎ (result ≡ Err DiskFault.Open)) }
{
    let kind = file.metadata().map_err(refusal)?.file_type();
    if !kind.is_block_device() {
        return file.set_len(len).map_err(refusal);
    }
    if file.seek(SeekFrom::End(0)).map_err(refusal)? != len {
        return Err(DiskFault::Open);
    }
    Ok(())
}

fn refusal(error: io::Error) -> DiskFault
    ensures memory { error_kind error ≡ ErrorKind.OutOfMemory → result ≡ DiskFault.Memory }
    ensures open { error_kind error ≢ ErrorKind.OutOfMemory → result ≡ DiskFault.Open }
{
    match error.kind() {
        ErrorKind::OutOfMemory => DiskFault::Memory,
        _ => DiskFault::Open,
    }
}

fn lock_refusal(error: TryLockError) -> DiskFault
    ensures { (result ≡ DiskFault.Memory) ⊎ (result ≡ DiskFault.Open) }
{
    refusal(io::Error::from(error))
}
