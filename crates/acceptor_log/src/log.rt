ghost use Rattle.std.specs.Prelude.{◌≡◌, ◌≢◌, ◌≤◌, ◌<◌, ◌↔◌, [], true, false, IfOk, IfErr, OnOk, OnErr};
ghost use Rattle.durable_model.specs.Honest.{Risen};
ghost use Rattle.acceptor_log_form.specs.Text.{StandsFor};
ghost use Rattle.acceptor_log.specs.Calls.{ForRested, LeavesNothingNew, Stays};
ghost use Rattle.acceptor_log.specs.Faults.{HasCauseIn, UnlessDevice};
ghost use Rattle.acceptor_log_writing.specs.Written.{with_journal};

use crate::device::put;
use crate::opening::{lay, load};
use acceptor_log_form::{HEADER_SIZE, Header, LogError, Record};
use acceptor_log_reading::Listed;
use acceptor_log_writing::blocks_behind;
use durable_model::{Disk, DiskError};
use std::alloc::Global;
use std::slice;

/// A journal's file has at most so many bytes.
pub const MOST_BYTES: u64 = acceptor_log_writing::MOST_BYTES;

/// The journal of one node, open on its disk.
#[derive(Drop)]
pub struct Log<D> {
    alloc: Global,
    disk: D,
    header: Header,
    /// Where the closed gate stands.
    gate: u64,
    /// How many records were listed and acknowledged.
    count: u64,
    /// False once the device has failed.
    going: bool,
    ghost fewer: { count ≤ gate },
}

impl<D: Disk> Log<D> {
    ghost use Rattle.acceptor_log.specs.Acknowledged.{acknowledged, file_with, text_with, Adds, IsReady, IsSound};
    ghost use Rattle.acceptor_log.specs.Acknowledged.{file_with_all, text_with_all, AddsAll};
    ghost use Rattle.acceptor_log.specs.Acknowledged.{IsUnwritten, IsNoFault, WhileGoing};
    ghost use Rattle.acceptor_log.specs.Crashes.{LeavesAddedOrNot, LeavesAllOrNone};
    ghost use Rattle.acceptor_log.specs.Disks.{OnDisk, OnOpened, OnWorkingDisk, OnWorkingOpened};

    /// Makes the journal with this header and no records on a disk, over what is there. Until it has answered `Ok`
    /// nothing is promised of the disk; after `NoMemory` nothing was written.
    pub fn create(alloc: Global, disk: D, header: &Header) -> Result<Log<D>, (D, LogError)>
        ensures sound { IfOk result (IsSound D.Disk) }
        ensures ok { IfOk result (λ log. (log.going ≡ true) × (log.header ≡ header.now)) }
        ensures honest { OnDisk result (λ now. D.is_honest now ↔ D.is_honest disk) }
        ensures none { D.is_honest disk → IfOk result (λ log. acknowledged D.seen log ≡ []) }
        ensures bytes { D.is_honest disk → IfOk result (λ log. D.seen log.disk ≡ with_journal header.now (D.seen disk)) }

        // It does not give up by itself.
        ensures unwritten { D.is_honest disk
            → IfErr result (λ refused. UnlessDevice (Stays D.Disk disk refused.0) refused.1) }
        ensures faults { IfErr result (λ refused. refused.1 ≢ LogError.Device → refused.1 ≡ LogError.NoMemory) }
        ensures failed { IfErr result (λ refused. refused.1 ≡ LogError.Device
            → Risen (D.faults disk) (D.faults refused.0)) }
        ensures later { OnDisk result (λ now. D.faults disk ≤ D.faults now) }
        // A failure of the device is told as one.
        ensures unfailed { OnWorkingDisk result (λ now. D.faults now ≡ D.faults disk) }
    {
        let mut disk = disk;
        match lay(alloc, header, &mut disk) {
            Ok(()) => Ok(Log {
                alloc,
                disk,
                header: *header,
                gate: HEADER_SIZE as u64,
                count: 0,
                going: true,
            }),
            Err(refused) => Err((disk, refused)),
        }
    }

    /// Opens the journal with this header, and lists its records. It syncs before it reads, so what it lists is
    /// durable. Where it refuses, the disk comes back.
    pub fn open(
        alloc: Global,
        disk: D,
        header: &Header,
    ) -> Result<(Log<D>, Vec<Record>), (D, LogError)>
        ensures sound { IfOk result (λ opened. IsSound D.Disk opened.0) }
        ensures ok { IfOk result (λ opened. (opened.0.going ≡ true) × (opened.0.header ≡ header.now)) }
        ensures honest { OnOpened result (λ now. D.is_honest now ↔ D.is_honest disk) }
        ensures listed { D.is_honest disk
            → IfOk result (λ opened. StandsFor header.now opened.1.items (D.seen disk)) }
        ensures acknowledged { D.is_honest disk
            → IfOk result (λ opened. acknowledged D.seen opened.0 ≡ opened.1.items) }

        // The disk is as it was, and a crash meanwhile leaves what it might have left before.
        ensures unchanged { D.is_honest disk → OnOpened result (Stays D.Disk disk) }
        ensures any_moment { D.is_honest disk → OnOpened result (LeavesNothingNew D.Disk disk) }

        // It does not give up by itself.
        ensures refused { D.is_honest disk → IfErr result (λ refused. HasCauseIn header.now (D.seen disk) refused.1) }
        ensures failed { IfErr result (λ refused. refused.1 ≡ LogError.Device
            → Risen (D.faults disk) (D.faults refused.0)) }
        ensures later { OnOpened result (λ now. D.faults disk ≤ D.faults now) }
        // A failure of the device is told as one: so it is where the sync fails.
        ensures unfailed { OnWorkingOpened result (λ now. D.faults now ≡ D.faults disk) }
    {
        let mut disk = disk;
        match load(alloc, header, &mut disk) {
            Ok(found) => {
                let Listed { records, gate } = found;
                let log = Log {
                    alloc,
                    disk,
                    header: *header,
                    gate: gate as u64,
                    count: records.len() as u64,
                    going: true,
                };
                Ok((log, records))
            }
            Err(refused) => Err((disk, refused)),
        }
    }

    /// Adds a record. At `Ok` it is acknowledged: from then on each crash leaves a journal that has it. After
    /// `Device` every call answers `Stopped`, until the journal is opened again.
    pub fn append(&mut self, entry: &Record) -> Result<(), LogError>
        requires { IsSound D.Disk self.old }
        ensures sound { IsSound D.Disk self.new }
        ensures honest { D.is_honest self.new.disk ↔ D.is_honest self.old.disk }
        ensures same { self.new.header ≡ self.old.header }

        ensures added { WhileGoing D.Disk self.old (OnOk result (Adds D.seen entry.now self.old self.new)) }
        ensures err { D.is_honest self.old.disk
            → OnErr result (acknowledged D.seen self.new ≡ acknowledged D.seen self.old) }
        ensures ok { OnOk result ((self.old.going ≡ true) × (self.new.going ≡ true)) }
        ensures bytes { D.is_honest self.old.disk
            → OnOk result (D.seen self.new.disk ≡ text_with D.seen self.old entry.now) }

        // A crash at any moment of the call leaves what was acknowledged before it, with the record or without.
        ensures any_moment { WhileGoing D.Disk self.old (LeavesAddedOrNot D.Disk entry.now self.old self.new) }

        // It does not give up by itself.
        ensures stopped { self.old.going ≡ false → (result ≡ Err LogError.Stopped) × (self.new ≡ self.old) }
        ensures only_stopped { result ≡ Err LogError.Stopped → self.old.going ≡ false }
        ensures stops { result ≡ Err LogError.Device → self.new.going ≡ false }
        ensures failed { result ≡ Err LogError.Device → Risen (D.faults self.old.disk) (D.faults self.new.disk) }
        ensures later { D.faults self.old.disk ≤ D.faults self.new.disk }
        ensures unfailed { result ≢ Err LogError.Device → D.faults self.new.disk ≡ D.faults self.old.disk }
        ensures unwritten { D.is_honest self.old.disk
            → IfErr result (UnlessDevice (IsUnwritten D.Disk self.old self.new)) }
        ensures full { result ≡ Err LogError.Full → MOST_BYTES < file_with self.old entry.now }
        ensures too_long { self.old.going ≡ true → MOST_BYTES < file_with self.old entry.now
            → result ≡ Err LogError.Full }
        ensures no_fault { IfErr result IsNoFault }
    {
        self.append_all(slice::from_ref(entry))
    }

    /// Adds records, in one write and two syncs, however many they are. At `Ok` all are acknowledged: from then on each crash
    /// leaves a journal that has them. A crash before leaves all or none. Of none it does nothing, while it goes on.
    pub fn append_all(&mut self, entries: &[Record]) -> Result<(), LogError>
        requires { IsSound D.Disk self.old }
        ensures sound { IsSound D.Disk self.new }
        ensures honest { D.is_honest self.new.disk ↔ D.is_honest self.old.disk }
        ensures same { self.new.header ≡ self.old.header }

        ensures added { WhileGoing D.Disk self.old
            (OnOk result (AddsAll D.seen entries.now self.old self.new)) }
        ensures err { D.is_honest self.old.disk
            → OnErr result (acknowledged D.seen self.new ≡ acknowledged D.seen self.old) }
        ensures ok { OnOk result ((self.old.going ≡ true) × (self.new.going ≡ true)) }
        ensures bytes { D.is_honest self.old.disk
            → OnOk result (D.seen self.new.disk ≡ text_with_all D.seen self.old entries.now) }
        ensures none { entries.now ≡ [] → self.old.going ≡ true → OnErr result ⊥ × (self.new ≡ self.old) }

        // A crash at any moment of the call leaves what was acknowledged before it, with all the records or with none.
        ensures any_moment { WhileGoing D.Disk self.old (LeavesAllOrNone D.Disk entries.now self.old self.new) }

        // It does not give up by itself.
        ensures stopped { self.old.going ≡ false → (result ≡ Err LogError.Stopped) × (self.new ≡ self.old) }
        ensures only_stopped { result ≡ Err LogError.Stopped → self.old.going ≡ false }
        ensures stops { result ≡ Err LogError.Device → self.new.going ≡ false }
        ensures failed { result ≡ Err LogError.Device → Risen (D.faults self.old.disk) (D.faults self.new.disk) }
        ensures later { D.faults self.old.disk ≤ D.faults self.new.disk }
        ensures unfailed { result ≢ Err LogError.Device → D.faults self.new.disk ≡ D.faults self.old.disk }
        ensures unwritten { D.is_honest self.old.disk
            → IfErr result (UnlessDevice (IsUnwritten D.Disk self.old self.new)) }
        ensures full { result ≡ Err LogError.Full → MOST_BYTES < file_with_all self.old entries.now }
        ensures too_long { self.old.going ≡ true → entries.now ≢ [] → MOST_BYTES < file_with_all self.old entries.now
            → result ≡ Err LogError.Full }
        ensures no_fault { IfErr result IsNoFault }
    {
        if !self.going {
            return Err(LogError::Stopped);
        }
        if entries.is_empty() {
            return Ok(());
        }
        let block = match blocks_behind(self.alloc, self.gate, entries) {
            Ok(block) => block,
            Err(refused) => return Err(refused),
        };
        match put(&mut self.disk, self.gate, block.as_slice()) {
            Ok(()) => {
                self.gate += block.len() as u64;
                self.count += entries.len() as u64;
                Ok(())
            }
            Err(DiskError::NoMemory) => Err(LogError::NoMemory),
            Err(DiskError::Device) => {
                self.going = false;
                Err(LogError::Device)
            }
        }
    }

    /// The journal on a disk that rests on so many records, its closed gate being there; a caller knows that it does.
    pub fn resting(alloc: Global, disk: D, header: &Header, count: u64, gate: u64) -> Log<D>
        requires { count ≤ gate }
        ensures parts { (result.disk ≡ disk) × (result.header ≡ header.now) × (result.going ≡ true) }
        ensures ready { ForRested D.Disk header.now count gate disk
            (λ rs. IsReady D.Disk result) }
        ensures acknowledged { ForRested D.Disk header.now count gate disk (λ rs. acknowledged D.seen result ≡ rs) }
    {
        Log {
            alloc,
            disk,
            header: *header,
            gate,
            count,
            going: true,
        }
    }

    /// The disk that the journal is on.
    pub fn disk(&self) -> &D
        ensures { result.now ≡ self.now.disk }
    {
        &self.disk
    }

    /// What is said of the journal at its beginning: whose it is, of how many nodes, and over which source.
    pub fn header(&self) -> &Header
        ensures { result.now ≡ self.now.header }
    {
        &self.header
    }

    /// Gives the disk back; takes no memory.
    pub fn into_disk(self) -> D
        ensures { result ≡ self.disk }
    {
        let Log { disk, .. } = self;
        disk
    }
}
