//! A bus that no other has is its own port.
use crate::member::Member;
use crate::offers::{Offered, followed_length, lose_at, offer_to, tell_to};
use crate::port::Port;
use bus_msg::entry::{Cause, Entry, Post};
use bus_order::bus::Bus;
use bus_order::marks::{Idled, Mark};
use t32_base::streams::NoMemory;

impl Port for Bus {
    ghost use Rattle.std.specs.Prelude.{⊤, true};

    ghost Root = { ⊤ };

    ghost alone = { true };

    ghost root = { λ b. tt };

    ghost bus = { λ b. b };

    ghost from = { λ b. 0 };

    ghost shows = { λ b. ⊤ };

    ghost sits = { λ k b. ⊤ };

    fn look(&mut self, _cluster: &Member) -> Result<(), NoMemory> {
        Ok(())
    }

    fn followed(&self) -> u64 {
        followed_length(self)
    }

    fn shown(&self, place: u64) -> &Entry {
        match self.entry(place) {
            Some(entry) => entry,
            None => unreachable!(),
        }
    }

    fn has_ended(&self) -> bool {
        self.is_over()
    }

    fn names_step(&self, cluster: &Member) -> bool {
        self.unused(cluster.number(), Cause::Step(cluster.steps()))
    }

    fn lose(&mut self, cluster: &Member) -> Result<(), NoMemory> {
        lose_at(self, cluster)
    }

    fn offer(&mut self, cluster: &Member, post: &Post) -> Result<Offered, NoMemory> {
        offer_to(self, cluster, post)
    }

    fn tell(&mut self, cluster: &Member, mark: Mark) -> Result<Option<Idled>, NoMemory> {
        tell_to(self, cluster, mark)
    }
}
