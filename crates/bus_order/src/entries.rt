//! How the entries of a log are kept: by themselves, or behind handles.
ghost use Rattle.std.specs.Prelude.{◌≡◌, ◌<◌, ◌≤◌, ◌-◌, Some, false, ◌∷◌, ◌++◌, [], length, map, drop, take, slice_get, IfOk, OnOk, OnErr};
ghost use Rattle.std.specs.Arc.{arc_value};
ghost use Rattle.std.specs.Option.{option_copied};
ghost use Rattle.channel_table.specs.Changes.{CanBeAbsorbed, is_birth};
ghost use Rattle.bus_msg.specs.PlacedAfter.{what, placed_after};
ghost use Rattle.cert_sched.specs.CertAfter.{KeepsSchedule};
ghost use Rattle.bus_order.specs.Entries.{entries_in};

use bus_msg::entry::{Entry, What};
use cert_sched::cert::Cert;
use channel_table::placement::Placement;
use std::alloc::Global;
use std::sync::Arc;
use t32_base::streams::NoMemory;

/// The entries of a log, in order. Those of a log that threads share stand behind a handle each, which a thread takes
/// without a copy. Those of another stand by themselves: that takes less memory, and their list is handed on as it is.
#[derive(Drop)]
pub enum Entries {
    Own(Vec<Entry>),
    Shared(Vec<Arc<Entry>>),
}

/// How many there are. Takes no memory.
pub fn count(entries: &Entries) -> usize
    ensures { result ≡ length (entries_in entries.now) }
{
    match entries {
        Entries::Own(own) => own.len(),
        Entries::Shared(shared) => shared.len(),
    }
}

/// The entry at a place. Takes no memory.
pub fn entry_at(entries: &Entries, place: u64) -> Option<&Entry>
    ensures { option_copied result ≡ slice_get (entries_in entries.now) place }
{
    match entries {
        Entries::Own(own) => own.get(place as usize),
        Entries::Shared(shared) => shared_at(shared, place),
    }
}

fn shared_at(entries: &[Arc<Entry>], place: u64) -> Option<&Entry>
    ensures { option_copied result ≡ slice_get (map arc_value entries.now) place }
{
    match entries.get(place as usize) {
        Some(entry) => Some(&**entry),
        None => None,
    }
}

/// The entry that stands last. Takes no memory.
pub fn last_of(entries: &Entries) -> Option<&Entry>
    ensures { option_copied result ≡ slice_get (entries_in entries.now) (length (entries_in entries.now) - 1) }
{
    match count(entries) {
        0 => None,
        count => entry_at(entries, count as u64 - 1),
    }
}

/// Entries that threads share from now on; where there are some already they stay as they are. Takes no memory.
pub fn share(entries: &mut Entries, alloc: Global)
    ensures { entries_in entries.new ≡ entries_in entries.old }
{
    if count(entries) == 0 {
        *entries = Entries::Shared(Vec::new(alloc));
    }
}

/// Puts an entry last, and takes it into the schedule and the placement. After want of memory all are as they were.
pub fn append(
    entries: &mut Entries,
    cert: &mut Cert,
    places: &mut Placement,
    entry: Entry,
) -> Result<(), NoMemory>
    requires { CanBeAbsorbed places.old (what entry) }
    ensures entries { OnOk result (entries_in entries.new ≡ entries_in entries.old ++ entry ∷ []) }
    ensures cert { OnOk result (KeepsSchedule cert.old cert.new entry) }
    ensures places { OnOk result (places.new ≡ placed_after places.old (what entry)) }
    ensures entries_stay { OnErr result (entries_in entries.new ≡ entries_in entries.old) }
    ensures cert_stays { OnErr result (cert.new ≡ cert.old) }
    ensures places_stay { OnErr result (places.new ≡ places.old) }
{
    match entries {
        Entries::Own(own) => append_own(own, cert, places, entry),
        Entries::Shared(shared) => {
            let handle = share_one(*shared.allocator(), entry)?;
            append_shared(shared, cert, places, handle)
        }
    }
}

fn append_own(
    own: &mut Vec<Entry>,
    cert: &mut Cert,
    places: &mut Placement,
    entry: Entry,
) -> Result<(), NoMemory>
    requires { CanBeAbsorbed places.old (what entry) }
    ensures entries { OnOk result (own.new.items ≡ own.old.items ++ entry ∷ []) }
    ensures cert { OnOk result (KeepsSchedule cert.old cert.new entry) }
    ensures places { OnOk result (places.new ≡ placed_after places.old (what entry)) }
    ensures entries_stay { OnErr result (own.new.items ≡ own.old.items) }
    ensures cert_stays { OnErr result (cert.new ≡ cert.old) }
    ensures places_stay { OnErr result (places.new ≡ places.old) }
{
    own.reserve(1)?;
    take_in(cert, places, &entry)?;
    own.push_reserved(entry);
    Ok(())
}

fn append_shared(
    shared: &mut Vec<Arc<Entry>>,
    cert: &mut Cert,
    places: &mut Placement,
    entry: Arc<Entry>,
) -> Result<(), NoMemory>
    requires { CanBeAbsorbed places.old (what (arc_value entry)) }
    ensures entries { OnOk result (shared.new.items ≡ shared.old.items ++ entry ∷ []) }
    ensures cert { OnOk result (KeepsSchedule cert.old cert.new (arc_value entry)) }
    ensures places { OnOk result (places.new ≡ placed_after places.old (what (arc_value entry))) }
    ensures entries_stay { OnErr result (shared.new.items ≡ shared.old.items) }
    ensures cert_stays { OnErr result (cert.new ≡ cert.old) }
    ensures places_stay { OnErr result (places.new ≡ places.old) }
{
    shared.reserve(1)?;
    take_in(cert, places, &entry)?;
    shared.push_reserved(entry);
    Ok(())
}

// Takes an entry into the schedule and the placement. After want of memory both are as they were: a child, which alone takes
// memory of the placement, is placed first, and is taken back where the schedule has no room.
fn take_in(cert: &mut Cert, places: &mut Placement, entry: &Entry) -> Result<(), NoMemory>
    requires { CanBeAbsorbed places.old (what entry.now) }
    ensures cert { OnOk result (KeepsSchedule cert.old cert.new entry.now) }
    ensures places { OnOk result (places.new ≡ placed_after places.old (what entry.now)) }
    ensures cert_stays { OnErr result (cert.new ≡ cert.old) }
    ensures places_stay { OnErr result (places.new ≡ places.old) }
{
    match &entry.post.what {
        What::Birth { parent, .. } => {
            places.absorb(entry)?;
            if let Err(NoMemory) = cert.add(entry) {
                places.take_back_birth(*parent);
                return Err(NoMemory);
            }
            Ok(())
        }
        What::Mail { .. }
        | What::Exit { .. }
        | What::Page { .. }
        | What::Sync { .. }
        | What::Fetch { .. }
        | What::PageIs { .. }
        | What::Crash { .. }
        | What::Return { .. }
        | What::Rebackup { .. }
        | What::Done { .. }
        | What::Stop => take_in_other(cert, places, entry),
    }
}

// The same for an entry that tells of no birth: it takes no memory of the placement.
fn take_in_other(cert: &mut Cert, places: &mut Placement, entry: &Entry) -> Result<(), NoMemory>
    requires { is_birth (what entry.now) ≡ false }
    ensures cert { OnOk result (KeepsSchedule cert.old cert.new entry.now) }
    ensures places { OnOk result (places.new ≡ placed_after places.old (what entry.now)) }
    ensures cert_stays { OnErr result (cert.new ≡ cert.old) }
    ensures places_stay { OnErr result (places.new ≡ places.old) }
{
    cert.add(entry)?;
    places.note(entry);
    Ok(())
}

fn share_one(alloc: Global, entry: Entry) -> Result<Arc<Entry>, NoMemory>
    ensures { IfOk result (λ shared. arc_value shared ≡ entry) }
{
    Ok(Arc::new(alloc, entry)?)
}

/// Handles of the entries from one place to another; of a copy, where they stand by themselves.
pub fn handles(entries: &Entries, from: u64, upto: u64) -> Result<Vec<Arc<Entry>>, NoMemory>
    requires order { from ≤ upto }
    requires within { upto ≤ length (entries_in entries.now) }
    ensures { IfOk result (λ news. map arc_value news.items ≡ drop from (take upto (entries_in entries.now))) }
{
    match entries {
        Entries::Own(own) => handles_of_copies(own, from, upto),
        Entries::Shared(shared) => handles_shared(shared, from, upto),
    }
}

fn handles_of_copies(
    entries: &Vec<Entry>,
    from: u64,
    upto: u64,
) -> Result<Vec<Arc<Entry>>, NoMemory>
    requires order { from ≤ upto }
    requires within { upto ≤ length entries.now.items }
    ensures { IfOk result (λ news. map arc_value news.items ≡ drop from (take upto entries.now.items)) }
{
    let alloc = *entries.allocator();
    let mut news = Vec::new(alloc);
    for place in from..upto {
        let entry = handle_of_copy(alloc, &entries[place as usize])?;
        news.push(entry)?;
    }
    Ok(news)
}

fn handle_of_copy(alloc: Global, entry: &Entry) -> Result<Arc<Entry>, NoMemory>
    ensures { IfOk result (λ handle. arc_value handle ≡ entry.now) }
{
    share_one(alloc, entry.copy()?)
}

fn handles_shared(
    entries: &Vec<Arc<Entry>>,
    from: u64,
    upto: u64,
) -> Result<Vec<Arc<Entry>>, NoMemory>
    requires order { from ≤ upto }
    requires within { upto ≤ length entries.now.items }
    ensures { IfOk result (λ news. map arc_value news.items ≡ drop from (take upto (map arc_value entries.now.items))) }
{
    let mut news = Vec::with_capacity(*entries.allocator(), (upto - from) as usize)?;
    for place in from..upto {
        let entry = Arc::try_clone(&entries[place as usize])?;
        news.push(entry)?;
    }
    Ok(news)
}

/// The entries by themselves. One behind a handle that has others is copied.
pub fn into_list(entries: Entries) -> Result<Vec<Entry>, NoMemory>
    ensures { IfOk result (λ all. all.items ≡ entries_in entries) }
{
    match entries {
        Entries::Own(own) => Ok(own),
        Entries::Shared(shared) => owned(shared),
    }
}

fn owned(entries: Vec<Arc<Entry>>) -> Result<Vec<Entry>, NoMemory>
    ensures { IfOk result (λ all. all.items ≡ map arc_value entries.items) }
{
    let mut all = Vec::with_capacity(*entries.allocator(), entries.len())?;
    for entry in entries {
        all.push(unshared(entry)?)?;
    }
    Ok(all)
}

fn unshared(entry: Arc<Entry>) -> Result<Entry, NoMemory>
    ensures { IfOk result (λ owned. owned ≡ arc_value entry) }
{
    match Arc::try_unwrap(entry) {
        Ok(owned) => Ok(owned),
        Err(shared) => shared.copy(),
    }
}
