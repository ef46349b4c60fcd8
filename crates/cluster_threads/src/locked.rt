//! The bus behind its lock: a cluster has it for a moment.
ghost use Rattle.std.specs.Prelude.{◌≡◌, Some, true};
ghost use Rattle.sys_text.specs.Valid.{is_system};
ghost use Rattle.sys_text.specs.declared.system.System.{System as ASystem};
ghost use Rattle.bus_lock.specs.Seats.{seat_origin, seen};
ghost use Rattle.bus_order.specs.View.{BusView, IsLawful};
ghost use Rattle.cluster_turns.specs.Along.{IsAlong, IsSound};
ghost use Rattle.cluster_turns.specs.Offers.{Adds, GrowsFor};
ghost use Rattle.cluster_threads.specs.Seated.{ComesFrom, IsAlongAll, IsInside, IsSeatOf, SeesEnd, bus_of, origin_of};

use bus_lock::{LogLock, LogSeat};
use bus_order::bus::Bus;
use bus_order::shared::SharedBus;
use cluster_turns::member::Member;
use std::sync::Wait;
use t32_base::process::ClusterNo;

// Waits for the bus, and takes it.
fn take<R: Wait>(
    rt: &R,
    lock: &LogLock<SharedBus>,
    seat: &mut LogSeat<SharedBus>,
    number: ClusterNo,
) -> Box<Bus>
    requires { IsSeatOf lock.now number seat.old }
    ensures inside { IsInside lock.now number seat.new result.value }
    ensures origin { seat_origin seat.old ≡ Some (origin_of result.value) }
    ensures longer { GrowsFor number (seen seat.old) result.value.log }
    ensures lawful { IsLawful result.value }
{
    lock.enter(rt, seat).into_box()
}

/// The same for a cluster of the bus's system: the bus is sound.
pub fn take_sound<R: Wait>(
    rt: &R,
    lock: &LogLock<SharedBus>,
    seat: &mut LogSeat<SharedBus>,
    cluster: &Member,
) -> Box<Bus>
    requires seat { IsSeatOf lock.now cluster.now.number seat.old }
    requires from { ComesFrom cluster.now.system (seat_origin seat.old) }
    requires valid { is_system cluster.now.system ≡ true }
    ensures inside { IsInside lock.now cluster.now.number seat.new result.value }
    ensures system { result.value.system ≡ cluster.now.system }
    ensures longer { GrowsFor cluster.now.number (seen seat.old) result.value.log }
    ensures origin { seat_origin seat.old ≡ Some (origin_of result.value) }
    ensures sound { IsSound result.value }
    ensures lawful { IsLawful result.value }
{
    take(rt, lock, seat, cluster.number())
}

/// The same for one along the bus as its seat has seen it: it is along the bus.
pub fn take_for<R: Wait>(
    rt: &R,
    lock: &LogLock<SharedBus>,
    seat: &mut LogSeat<SharedBus>,
    cluster: &Member,
) -> Box<Bus>
    requires seat { IsSeatOf lock.now cluster.now.number seat.old }
    requires from { ComesFrom cluster.now.system (seat_origin seat.old) }
    requires valid { is_system cluster.now.system ≡ true }
    requires along { IsAlongAll (seat_origin seat.old) (seen seat.old) cluster.now }
    ensures inside { IsInside lock.now cluster.now.number seat.new result.value }
    ensures system { result.value.system ≡ cluster.now.system }
    ensures longer { GrowsFor cluster.now.number (seen seat.old) result.value.log }
    ensures origin { seat_origin seat.old ≡ Some (origin_of result.value) }
    ensures sound { IsSound result.value }
    ensures lawful { IsLawful result.value }
    ensures along { IsAlong result.value cluster.now }
{
    take_sound(rt, lock, seat, cluster)
}

/// Puts the bus back, to which the cluster may have added entries.
pub fn give(
    lock: &LogLock<SharedBus>,
    seat: &mut LogSeat<SharedBus>,
    bus: Box<Bus>,
    number: ClusterNo,
)
    requires added { (was : BusView) × IsInside lock.now number seat.old was × Adds number was bus.value }
    requires lawful { IsLawful bus.value }
    requires sound { IsSound bus.value }
    ensures seat { IsSeatOf lock.now number seat.new }
    ensures origin { seat_origin seat.new ≡ Some (origin_of bus.value) }
    ensures whole { seen seat.new ≡ bus.value.log }
    ensures sound { IsSound (bus_of (origin_of bus.value) (seen seat.new)) }
{
    put_back(lock, seat, bus, number);
}

// The same for any bus.
fn put_back(
    lock: &LogLock<SharedBus>,
    seat: &mut LogSeat<SharedBus>,
    bus: Box<Bus>,
    number: ClusterNo,
)
    requires added { (was : BusView) × IsInside lock.now number seat.old was × Adds number was bus.value }
    requires lawful { IsLawful bus.value }
    ensures seat { IsSeatOf lock.now number seat.new }
    ensures origin { seat_origin seat.new ≡ Some (origin_of bus.value) }
    ensures whole { seen seat.new ≡ bus.value.log }
{
    lock.leave(seat, SharedBus::from_box(bus));
}

/// Ends the run for want of memory in a cluster: its seat has then seen a log that is over. Takes no memory.
pub fn stop<R: Wait>(
    rt: &R,
    lock: &LogLock<SharedBus>,
    seat: &mut LogSeat<SharedBus>,
    number: ClusterNo,
)
    requires { IsSeatOf lock.now number seat.old }
    ensures seat { IsSeatOf lock.now number seat.new }
    ensures origin { seat_origin seat.new ≡ seat_origin seat.old }
    ensures over { SeesEnd seat.new }
{
    let mut bus = take(rt, lock, seat, number);
    bus.stop();
    put_back(lock, seat, bus, number);
}
