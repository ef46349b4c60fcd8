//! What is kept of a log for each further entry: the placement, whether the log is over, and its length.
ghost use Rattle.std.specs.Prelude.{◌≡◌, ◌+◌, ◌-◌, ◌<◌, ◌^◌, true, not, [], IfOk, OnOk, slice_get};
ghost use Rattle.sys_text.specs.Valid.{is_system};
ghost use Rattle.bus_msg.specs.Places.{lives_in, servers_in};
ghost use Rattle.bus_msg.specs.PlacedAfter.{what};
ghost use Rattle.channel_table.specs.Changes.{CanBeAbsorbed, IsRoutable};
ghost use Rattle.cert_sched.specs.Rules.{ends_run};
ghost use Rattle.log_audit.specs.Fetches.{home_told};
ghost use Rattle.log_audit.specs.Front.{IsFrontOf, KeepsFront, entry_at, is_next};

use bus_msg::entry::{Entry, Post, What};
use cert_sched::start::placement_at_boot;
use channel_table::placement::Placement;
use entry_lines::ToldBy;
use std::alloc::Global;
use std::marker::Model;
use sys_text::system::System;
use t32_base::process::{ClusterNo, Pid};
use t32_base::streams::NoMemory;

/// The front of a log.
#[derive(Drop)]
pub struct Front {
    places: Placement,
    over: bool,
    length: u64,
}

impl Model for Front {
    ghost use Rattle.log_audit.specs.Front.{FrontState};

    ghost Value = { FrontState };

    ghost view = { λ f. record { places = f.places; over = f.over; length = f.length } };
}

impl Front {
    /// That of the log with no entry.
    pub fn start(alloc: Global, system: &System) -> Result<Front, NoMemory>
        requires valid { is_system system.now ≡ true }
        ensures { IfOk result (λ front. IsFrontOf system.now [] front) }
    {
        Ok(Front {
            places: placement_at_boot(alloc, system)?,
            over: false,
            length: 0,
        })
    }

    /// Takes in an entry. After want of memory nothing is said.
    pub fn take(&mut self, entry: &Entry) -> Result<(), NoMemory>
        requires next { CanBeAbsorbed self.old.places (what entry.now) }
        requires room { self.old.length < 2 ^ 64 - 1 }
        ensures { OnOk result (KeepsFront self.old self.new entry.now) }
    {
        let over = self.ends(&entry.post.what);
        self.places.absorb(entry)?;
        self.over = over;
        self.length += 1;
        Ok(())
    }

    // Whether an entry that says this ends the run.
    fn ends(&self, what: &What) -> bool
        ensures { result ≡ ends_run self.now.places what.now }
    {
        match what {
            What::Done { .. } | What::Stop => true,
            What::Crash { k, .. } => !self.places.covered(*k),
            What::Mail { .. }
            | What::Birth { .. }
            | What::Exit { .. }
            | What::Page { .. }
            | What::Sync { .. }
            | What::Fetch { .. }
            | What::PageIs { .. }
            | What::Return { .. }
            | What::Rebackup { .. } => false,
        }
    }

    /// The placement after the log. Takes no memory.
    pub fn places(&self) -> &Placement
        ensures { result.now ≡ self.now.places }
    {
        &self.places
    }

    /// Whether an entry with this place may stand next: it is the next place, and the log is not over. Takes no memory.
    pub fn is_next(&self, place: u64) -> bool
        ensures { result ≡ is_next self.now place }
    {
        self.length == place && !self.over
    }

    /// Whether a cluster lives. Takes no memory.
    pub fn living(&self, k: ClusterNo) -> bool
        ensures { result ≡ lives_in self.now.places k }
    {
        self.places.living(k)
    }

    /// The home of a process that has not ended, where that cluster lives and the line says that it sent it. Takes no memory.
    pub fn home(&self, by: ToldBy, pid: Pid) -> Option<ClusterNo>
        ensures { result ≡ home_told self.now.places by pid }
    {
        let ToldBy::Cluster(k) = by else {
            return None;
        };
        let Some(placed) = self.places.unended(pid) else {
            return None;
        };
        if u64::from(placed.home.0) == k && self.places.living(placed.home) {
            Some(placed.home)
        } else {
            None
        }
    }

    /// The first of the two page servers that was never lost. Takes no memory.
    pub fn first_server(&self) -> Option<ClusterNo>
        ensures { result ≡ slice_get (servers_in self.now.places) 0 }
    {
        self.places.first_server()
    }

    /// The entry that a post becomes at this place. Takes no memory.
    pub fn entry_at(&self, place: u64, post: Post) -> Entry
        requires { IsRoutable self.now.places post.what }
        ensures { result ≡ entry_at self.now place post }
    {
        let dests = self.places.route(&post);
        Entry { place, post, dests }
    }
}
