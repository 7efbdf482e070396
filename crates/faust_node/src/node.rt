// One client's cell, shared by threads.
ghost use Rattle.std.specs.Prelude.{◌≡◌, ◌≢◌, ◌<◌, ◌≤◌, ◌↔◌, Err, IfErr, IfOk, length};
ghost use Rattle.faust_types.specs.Clients.{IsClient};
ghost use Rattle.faust_types.specs.Ranges.{IsConfig};
ghost use Rattle.faust_types.specs.declared.operation.Kind.TheVariants.{Read, Write};
ghost use Rattle.faust_ticket.specs.Holders.{first_seat};
ghost use Rattle.faust_link.specs.Frames.{IsFrame};
ghost use Rattle.faust_node.specs.Cells.{IsCell};
ghost use Rattle.faust_node.specs.Steps.{IsAsked, IsAskedFor, IsMidway};

use crate::cell::NodeCell;
use crate::error::NodeError;
use crate::receipt::Receipt;
use crate::session::Session;
use faust_record::{Input, Journal};
use faust_ticket::Seat;
use faust_types::{Bytes, Closing, Config, MAX_VALUE_LEN, Message, Operation, OutOfMemory};
use faust_wire::encode;
use std::alloc::Global;
use std::sync::{Condvar, Mutex, MutexGuard, Wait};

/// One client's cell under a lock, with the HELLO that its outbox sends first. Its calls take the lock, wait for others,
/// and hand on to the cell: what they promise, they promise if they return.
#[derive(Drop)]
pub struct Node<T: Session> {
    pub(crate) alloc: Global,
    pub(crate) hello: Bytes,
    pub(crate) cell: Mutex<NodeCell<T>>,
    pub(crate) changed: Condvar,
    clients: u8,
    ghost greets: { IsFrame hello },
    ghost counted: { clients ≡ T.config.clients },
}

impl<T: Session> Node<T> {
    /// The node of client `me`, from 1 to n. T names this config, and the seat is as it was split off.
    pub fn new(
        alloc: Global,
        config: &Config,
        me: u8,
        seat: Seat<T>,
    ) -> Result<Node<T>, OutOfMemory>
        requires config { IsConfig config.now }
        requires named { T.config ≡ config.now }
        requires client { IsClient config.now.clients me }
        requires seat { seat ≡ first_seat }
    {
        let hello = encode(alloc, config.wire, config.clients, &Message::Hello(me))?;
        let cell = NodeCell::new(alloc, config, me, seat)?;
        Ok(Node {
            alloc,
            hello,
            cell: Mutex::new(cell),
            changed: Condvar::new(),
            clients: config.clients,
        })
    }

    /// Waits until the client is idle, begins to write this value into its register, and waits for the completion.
    pub fn write<R: Wait>(&self, rt: &R, value: &[u8]) -> Result<Receipt, NodeError>
        ensures too_long { (result ≡ Err NodeError.TooLong) ↔ (4096 < length value.now) }
        ensures register { result ≢ Err NodeError.NoRegister }
        ensures kind { IfOk result (λ receipt. receipt.answer.op.kind ≡ Write) }
    {
        if value.len() > MAX_VALUE_LEN {
            return Err(NodeError::TooLong);
        }
        match Bytes::from_slice(self.alloc, value) {
            Ok(value) => self.complete(rt, Input::Write(value)),
            Err(_) => Err(NodeError::OutOfMemory),
        }
    }

    /// Waits until the client is idle, begins to read this register, and waits for the completion.
    pub fn read<R: Wait>(&self, rt: &R, register: u8) -> Result<Receipt, NodeError>
        ensures too_long { result ≢ Err NodeError.TooLong }
        ensures register { (result ≡ Err NodeError.NoRegister) ↔ (IsClient T.config.clients register → ⊥) }
        ensures kind { IfOk result (λ receipt. receipt.answer.op.kind ≡ Read) }
        ensures asked { IfOk result (λ receipt. receipt.answer.op.register ≡ register) }
    {
        if register < 1 || register > self.clients {
            return Err(NodeError::NoRegister);
        }
        self.complete(rt, Input::Read(register))
    }

    // Begins where the client is idle, and waits for the receipt.
    fn complete<R: Wait>(&self, rt: &R, input: Input) -> Result<Receipt, NodeError>
        requires { IsAsked T.config.clients input }
        ensures receipt { IfOk result (λ receipt. IsAskedFor input receipt.answer.op) }
        ensures error { IfErr result IsMidway }
    {
        let mut cell = self.cell.lock(rt);
        for _ in rt.forever() {
            if let Some(error) = cell.refusal() {
                return Err(error);
            }
            if cell.is_idle() {
                let Ok(op) = cell.begin(input) else {
                    return Err(NodeError::OutOfMemory);
                };
                self.changed.notify_all();
                return self.receipt(rt, cell, op);
            }
            cell = self.changed.wait(rt, cell);
        }
        unreachable!()
    }

    // Waits for the receipt of the operation that just began.
    fn receipt<R: Wait>(
        &self,
        rt: &R,
        mut cell: MutexGuard<'_, NodeCell<T>>,
        op: Operation,
    ) -> Result<Receipt, NodeError>
        ensures receipt { IfOk result (λ receipt. receipt.answer.op ≡ op) }
        ensures error { IfErr result IsMidway }
    {
        let mut from = cell.journal().len();
        for _ in rt.forever() {
            match cell.receipt_from(from, op) {
                Ok(Some(receipt)) => return Ok(receipt),
                Ok(None) => {}
                Err(_) => return Err(NodeError::OutOfMemory),
            }
            if let Some(error) = cell.refusal() {
                return Err(error);
            }
            from = cell.journal().len();
            cell = self.changed.wait(rt, cell);
        }
        unreachable!()
    }

    /// Asks the node to close. It takes no memory.
    pub fn close<R: Wait>(&self, rt: &R) {
        self.close_with(rt, Closing::Asked);
    }

    /// Closes the cell with this cause, and wakes all that wait for it.
    pub(crate) fn close_with<R: Wait>(&self, rt: &R, cause: Closing) {
        self.cell.lock(rt).close(cause);
        self.changed.notify_all();
    }

    /// The journal, its seat, and the cause that closed the cell. It takes no memory.
    pub fn into_parts(self) -> (Journal, Seat<T>, Option<Closing>)
        ensures { IsCell T.config (record { log = result.0; seat = result.1; closed = result.2 }) }
    {
        self.cell.into_inner().into_parts()
    }
}
