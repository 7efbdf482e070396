//! One event after the other: what it makes of the run and of what the liar holds.
ghost use Rattle.std.specs.Prelude.{◌≡◌, ◌≤◌, ◌-◌, ℕ, None, Some, List, length, option_copied, slice_get, Result, IfOk};
ghost use Rattle.faust_types.specs.Clients.{IsClient};
ghost use Rattle.faust_types.specs.Ranges.{IsConfig};
ghost use Rattle.faust_record.specs.Refusals.{IsPushInput};
ghost use Rattle.faust_record.specs.Runs.{next_message};
ghost use Rattle.faust_script.specs.InRange.{IsEditFor, IsEventFor};
ghost use Rattle.faust_liar.specs.InRange.{IsLiarState};
ghost use Rattle.faust_liar.specs.Lies.{Handed, LiarState, again_due, branched, echoed, edited_due, next_due, routed};
ghost use Rattle.faust_liar.specs.declared.error.LiarError.{LiarError};
ghost use Rattle.faust_sim.specs.Kept.{last_arrival};

use crate::mail::Mail;
use crate::refusing::{lie_refused, push_refused};
use faust_liar::{Liar, LiarError};
use faust_record::{Input, PushInput, RunRecord};
use faust_script::{Edit, Event};
use faust_text::{Cause, LineError};
use faust_types::{Bytes, Config, OutOfMemory};
use std::alloc::Global;

/// The run so far, the liar, and the messages that clients sent to one another. After a refusal it is of no more use.
#[derive(Drop)]
pub struct Stage {
    pub run: RunRecord,
    pub liar: Liar,
    pub mail: Mail,
}

impl Stage {
    ghost use Rattle.faust_sim.specs.Play.{arrives, delivered, event_played, first_scene, handed, lied, pushed};
    ghost use Rattle.faust_sim.specs.Playing.{Comes, IsHanded, IsKept, scene_of};
    ghost use Rattle.faust_sim.specs.Mail.{mailed};

    /// Nothing happened yet.
    pub fn new(alloc: Global, config: &Config) -> Result<Stage, OutOfMemory>
        requires { IsConfig config.now }
        ensures kept { IfOk result IsKept }
        ensures first { IfOk result (λ stage. scene_of stage ≡ first_scene config.now) }
    {
        Ok(Stage {
            run: RunRecord::new(alloc, config.copy()?)?,
            liar: Liar::new(alloc, config.wire, config.clients)?,
            mail: Mail::new(alloc, config.clients)?,
        })
    }

    /// Plays an event, or names why it can't be played.
    pub fn play(&mut self, event: &Event) -> Result<(), LineError>
        requires kept { IsKept self.old }
        requires event { IsEventFor self.old.run.config.clients event.now }
        ensures { Comes result self.new (event_played (scene_of self.old) event.now) }
    {
        // What the liar keeps is known from here on.
        let _clients = self.liar.clients();
        match event {
            Event::Write { client, value } => self.push(*client, PushInput::Write(value.copy()?)),
            Event::Read { client, register } => self.push(*client, PushInput::Read(*register)),
            Event::Arrive { client } => self.arrive(*client),
            Event::Reply { client } => self.reply(*client),
            Event::Tick { client, moment } => self.push(*client, PushInput::Tick(*moment)),
            Event::Peer {
                sender,
                receiver,
                k,
            } => self.deliver(*sender, *receiver, *k),
            Event::Post { receiver, bytes } => self.push(*receiver, PushInput::Peer(bytes.copy()?)),
            Event::Branch { from, to } => self.branch(*from, *to),
            Event::Route { client, to } => self.route(*client, *to),
            Event::Echo { client, k, to } => self.echo(*client, *k, *to),
            Event::Again { client, k } => self.again(*client, *k),
            Event::Edited { client, edit } => self.edit(*client, edit),
            Event::Forged { client, edit } => self.forge(*client, edit),
            Event::Raw { client, bytes } => self.push(*client, PushInput::Reply(bytes.copy()?)),
        }
    }

    // An entry, and what it sent to other clients.
    fn push(&mut self, client: u8, input: PushInput) -> Result<(), LineError>
        requires kept { IsKept self.old }
        requires client { IsClient self.old.run.config.clients client }
        requires input { IsPushInput input }
        ensures { Comes result self.new (pushed (scene_of self.old) client input) }
    {
        match self.run.push(client, input) {
            Ok(()) => {}
            Err(error) => return Err(push_refused(error)),
        }
        self.mail.note(&self.run)?;
        Ok(())
    }

    // The next message of the client to the server arrives there, and the client's branch handles it.
    fn arrive(&mut self, client: u8) -> Result<(), LineError>
        requires kept { IsKept self.old }
        requires client { IsClient self.old.run.config.clients client }
        ensures { Comes result self.new (arrives (scene_of self.old) client (next_message client self.old.run.entries)) }
    {
        self.push(client, PushInput::Arrive)?;
        match last_arrival(&self.run) {
            Some(message) => {
                self.liar.arrive(client, message.copy()?)?;
                Ok(())
            }
            None => Ok(()),
        }
    }

    // The next reply in the client's queue.
    fn reply(&mut self, client: u8) -> Result<(), LineError>
        requires kept { IsKept self.old }
        requires liar { IsLiarState self.old.liar }
        requires client { IsClient self.old.run.config.clients client }
        ensures { Comes result self.new (handed self.old.run client (next_due self.old.liar client)) }
    {
        let out = self.liar.next(client);
        self.hand(client, out)
    }

    // A reply that was made before.
    fn again(&mut self, client: u8, k: usize) -> Result<(), LineError>
        requires kept { IsKept self.old }
        requires liar { IsLiarState self.old.liar }
        requires client { IsClient self.old.run.config.clients client }
        ensures { Comes result self.new (handed self.old.run client (again_due self.old.liar client k)) }
    {
        let out = self.liar.again(client, k);
        self.hand(client, out)
    }

    // The next reply, edited.
    fn edit(&mut self, client: u8, edit: &Edit) -> Result<(), LineError>
        requires kept { IsKept self.old }
        requires liar { IsLiarState self.old.liar }
        requires client { IsClient self.old.run.config.clients client }
        requires edit { IsEditFor self.old.run.config.clients edit.now }
        ensures { Comes result self.new (handed self.old.run client (edited_due self.old.liar client edit.now None)) }
    {
        let out = self.liar.edited(client, edit, None);
        self.hand(client, out)
    }

    // The next reply, edited, with the tag over the edited part made anew.
    fn forge(&mut self, client: u8, edit: &Edit) -> Result<(), LineError>
        requires kept { IsKept self.old }
        requires liar { IsLiarState self.old.liar }
        requires client { IsClient self.old.run.config.clients client }
        requires edit { IsEditFor self.old.run.config.clients edit.now }
        ensures { Comes result self.new (handed self.old.run client
            (edited_due self.old.liar client edit.now (Some self.old.run.config.key))) }
    {
        let key = self.run.config().key.as_slice();
        let out = self.liar.edited(client, edit, Some(key));
        self.hand(client, out)
    }

    // What the liar hands out comes to the client as a reply.
    fn hand(&mut self, client: u8, out: Result<Bytes, LiarError>) -> Result<(), LineError>
        requires kept { IsKept self.old }
        requires client { IsClient self.old.run.config.clients client }
        requires sized { IfOk out (λ bytes. length bytes ≤ 16384) }
        ensures { (due : Result Handed LiarError) → IsHanded out self.old.liar due
            → Comes result self.new (handed self.old.run client due) }
    {
        match out {
            Ok(bytes) => self.push(client, PushInput::Reply(bytes)),
            Err(error) => Err(lie_refused(error)),
        }
    }

    // A message from one client to another.
    fn deliver(&mut self, sender: u8, receiver: u8, k: usize) -> Result<(), LineError>
        requires kept { IsKept self.old }
        requires sender { IsClient self.old.run.config.clients sender }
        requires receiver { IsClient self.old.run.config.clients receiver }
        requires counted { 1 ≤ k }
        ensures { Comes result self.new (delivered (scene_of self.old) receiver
            (slice_get (mailed sender receiver self.old.run.entries) (k - 1))) }
    {
        let Some(bytes) = self.mail.letter(&self.run, sender, receiver, k) else {
            return Err(LineError::Refused(Cause::Nothing));
        };
        let bytes = bytes.copy()?;
        self.push(receiver, PushInput::Peer(bytes))
    }

    fn branch(&mut self, from: usize, to: usize) -> Result<(), LineError>
        requires kept { IsKept self.old }
        ensures { Comes result self.new (lied self.old.run (branched self.old.liar from to)) }
    {
        match self.liar.branch(from, to) {
            Ok(()) => Ok(()),
            Err(error) => Err(lie_refused(error)),
        }
    }

    fn route(&mut self, client: u8, to: usize) -> Result<(), LineError>
        requires kept { IsKept self.old }
        requires client { IsClient self.old.run.config.clients client }
        ensures { Comes result self.new (lied self.old.run (routed self.old.liar client to)) }
    {
        match self.liar.route(client, to) {
            Ok(()) => Ok(()),
            Err(error) => Err(lie_refused(error)),
        }
    }

    fn echo(&mut self, client: u8, k: usize, to: usize) -> Result<(), LineError>
        requires kept { IsKept self.old }
        requires client { IsClient self.old.run.config.clients client }
        ensures { Comes result self.new (lied self.old.run (echoed self.old.liar client k to)) }
    {
        match self.liar.echo(client, k, to) {
            Ok(()) => Ok(()),
            Err(error) => Err(lie_refused(error)),
        }
    }
}

// The message that arrives in the last entry of a run, if one does.
fn last_arrival(run: &RunRecord) -> Option<&Bytes>
    ensures { option_copied result ≡ last_arrival run.now.entries }
{
    let number = run.len().checked_sub(1)?;
    match &run.entry(number)?.input {
        Input::Arrive(message) => Some(message),
        Input::Write(_) | Input::Read(_) | Input::Reply(_) | Input::Peer(_) | Input::Tick(_) =>
            None,
    }
}
