ghost use Rattle.std.specs.Prelude.{◌≡◌, ℕ, ◌+◌, ◌-◌, ◌<◌, ◌≤◌, ◌^◌, length, replicate, slice_index, OnOk, IfOk};
ghost use Rattle.faust_types.specs.Clients.{IsClient};
ghost use Rattle.faust_script.specs.Generated.{able, able_from, acted, acts, after_draw, answer, beginning, begins_drawn, begins_read, begins_with, can_act, drawn, idle, may_begin_one, value_of, with_event_of};
ghost use Rattle.faust_script.specs.Stepping.{CanAct, CanStep};

use crate::event::Event;
use crate::script::Events;
use faust_text::put_number;
use faust_types::{Bytes, OutOfMemory, Sequence};
use std::alloc::Global;

/// A draw makes the next state by this product and sum, modulo 2^64.
const FACTOR: u64 = 6_364_136_223_846_793_005;

const ADDEND: u64 = 1_442_695_040_888_963_407;

const SHIFT: u32 = 33;

/// How far a client is with its operation.
#[derive(Clone, Copy, Debug)]
pub enum Phase {
    /// It has none.
    Idle,
    /// It sent its SUBMIT.
    Begun,
    /// The SUBMIT arrived.
    Arrived,
    /// It was handed the reply, and sent its COMMIT.
    Replied,
}

/// A client: its phase, and how many operations it began.
#[derive(Clone, Copy, Debug)]
pub struct Actor {
    pub phase: Phase,
    pub number: u64,
}

/// A script in the making: the state of the draws, how many operations began, the clients and the events so far.
#[derive(Debug, Drop)]
pub struct Progress {
    pub state: u64,
    pub begun: u64,
    pub actors: Sequence<Actor>,
    pub events: Events,
}

impl Phase {
    fn can_act(self, may_begin: bool) -> bool
        ensures { result ≡ can_act may_begin self }
    {
        match self {
            Phase::Idle => may_begin,
            Phase::Begun | Phase::Arrived | Phase::Replied => true,
        }
    }
}

impl Progress {
    /// Nothing began. There is room for so many events.
    pub fn start(
        alloc: Global,
        seed: u64,
        clients: u8,
        event_count: usize,
    ) -> Result<Progress, OutOfMemory>
        ensures { IfOk result (λ progress. progress ≡ beginning seed clients) }
    {
        let mut events = Sequence::new(alloc);
        events.reserve(event_count)?;
        Ok(Progress {
            state: seed,
            begun: 0,
            actors: idle_actors(alloc, clients)?,
            events,
        })
    }

    /// One step: of the clients that can act the drawn one does what it does next.
    pub fn step(&mut self, clients: u8, ops: u64) -> Result<(), OutOfMemory>
        requires { CanStep clients ops self.old }
        ensures { OnOk result (self.new ≡ acted clients ops self.old) }
    {
        let may_begin = self.begun < ops - 1;
        let able = able_count(self.actors.as_slice(), may_begin);
        let place = self.draw() % able;
        let client = able_at(self.actors.as_slice(), may_begin, place);
        self.act(clients, client)
    }

    fn draw(&mut self) -> u64
        ensures value { result ≡ answer self.new.state }
        ensures state { self.new ≡ after_draw self.old }
    {
        self.state = self.state.wrapping_mul(FACTOR).wrapping_add(ADDEND);
        self.state >> SHIFT
    }

    fn act(&mut self, clients: u8, client: u8) -> Result<(), OutOfMemory>
        requires { CanAct clients client self.old }
        ensures { OnOk result (self.new ≡ acts clients client self.old) }
    {
        let Actor { phase, number } = *self.actors.at(usize::from(client) - 1);
        match phase {
            Phase::Idle => self.begin(clients, client, number + 1),
            Phase::Begun => self.go_on(client, number, Phase::Arrived, Event::Arrive { client }),
            Phase::Arrived => self.go_on(client, number, Phase::Replied, Event::Reply { client }),
            Phase::Replied => self.go_on(client, number, Phase::Idle, Event::Arrive { client }),
        }
    }

    fn go_on(
        &mut self,
        client: u8,
        number: u64,
        phase: Phase,
        event: Event,
    ) -> Result<(), OutOfMemory>
        requires { IsClient (length self.old.actors) client }
        ensures { OnOk result (self.new ≡ with_event_of client (record { phase = phase; number = number }) event self.old) }
    {
        self.actors
            .set(usize::from(client) - 1, Actor { phase, number });
        self.events.push(event)
    }

    fn begin(&mut self, clients: u8, client: u8, number: u64) -> Result<(), OutOfMemory>
        requires client { IsClient clients client }
        requires counted { length self.old.actors ≡ clients }
        requires few { self.old.begun < 3000 }
        ensures { OnOk result (self.new ≡ begins_drawn clients client number (after_draw self.old)) }
    {
        if self.draw() % 2 == 0 {
            let value = value_of(self.events.allocator(), client, number)?;
            self.begin_with(client, number, Event::Write { client, value })
        } else {
            let register = (self.draw() % u64::from(clients)) as u8 + 1;
            self.begin_with(client, number, Event::Read { client, register })
        }
    }

    fn begin_with(&mut self, client: u8, number: u64, event: Event) -> Result<(), OutOfMemory>
        requires client { IsClient (length self.old.actors) client }
        requires few { self.old.begun < 3000 }
        ensures { OnOk result (self.new ≡ begins_with client number event self.old) }
    {
        self.begun += 1;
        self.go_on(client, number, Phase::Begun, event)
    }
}

fn idle_actors(alloc: Global, clients: u8) -> Result<Sequence<Actor>, OutOfMemory>
    ensures { IfOk result (λ actors. actors ≡ replicate clients idle) }
{
    let mut actors = Sequence::new(alloc);
    actors.reserve(usize::from(clients))?;
    for _ in 0..clients {
        actors.push(Actor {
            phase: Phase::Idle,
            number: 0,
        })?;
    }
    Ok(actors)
}

/// How many clients can act.
fn able_count(actors: &[Actor], may_begin: bool) -> u64
    ensures { result ≡ length (able_from may_begin 1 actors.now) }
{
    let mut count = 0;
    for actor in actors {
        if actor.phase.can_act(may_begin) {
            count += 1;
        }
    }
    count
}

/// The client in that place, counted from 0, of those that can act.
fn able_at(actors: &[Actor], may_begin: bool, place: u64) -> u8
    requires few { length actors.now ≤ 32 }
    requires within { place < length (able_from may_begin 1 actors.now) }
    ensures value { result ≡ slice_index (able_from may_begin 1 actors.now) place }
    ensures client { IsClient (length actors.now) result }
{
    let mut left = place;
    let mut client = 0;
    for actor in actors {
        client += 1;
        if actor.phase.can_act(may_begin) {
            if left == 0 {
                return client;
            }
            left -= 1;
        }
    }
    unreachable!()
}

fn value_of(alloc: Global, client: u8, number: u64) -> Result<Bytes, OutOfMemory>
    ensures { IfOk result (λ value. value ≡ value_of client number) }
{
    let mut value = Bytes::new(alloc);
    value.reserve(24)?;
    put_number(&mut value, u64::from(client))?;
    value.push(b'-')?;
    put_number(&mut value, number)?;
    Ok(value)
}
