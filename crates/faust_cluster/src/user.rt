// A user: the list of its operations, and what it was told.
ghost use Rattle.std.specs.Prelude.{◌≡◌, ◌≤◌, ◌∷◌, ◌++◌, [], IfOk, IsTrue, OnErr, OnOk, length};
ghost use Rattle.faust_types.specs.Bytes.{AreBytes};
ghost use Rattle.faust_types.specs.Clients.{IsClient};
ghost use Rattle.faust_receipts.specs.Receipts.{ArePrintable, IsPrintable};
ghost use Rattle.faust_outcome.specs.UserLists.{AreListed, AreTold, IsListed, is_write_turn, next_client};
ghost use Rattle.faust_types.specs.declared.operation.Kind.TheVariants.{Write};
ghost use Rattle.faust_cluster.specs.Props.{listed-prop, printable-prop};

use crate::cast::Cast;
use faust_node::{Node, NodeError, Receipt};
use faust_text::put_number;
use faust_types::{Bytes, MAX_VALUE_LEN, OutOfMemory, Sequence};
use std::alloc::Global;
use std::marker::PhantomData;
use std::sync::Wait;

/// A user of client `client`, from 1 to n, that makes `ops` operations, of n clients.
#[derive(Debug, Drop)]
pub struct User<T: Cast> {
    clients: u8,
    client: u8,
    ops: u64,
    cast: PhantomData<T>,
    ghost of_cast: { (clients ≡ T.config.clients) × (ops ≡ T.ops) × IsClient T.config.clients client },
}

/// What a user was told: the receipts of its operations in order, and why it stopped before the last.
#[derive(Drop)]
pub struct Told<T: Cast> {
    pub client: u8,
    pub receipts: Sequence<Receipt>,
    pub stopped: Option<NodeError>,
    pub cast: PhantomData<T>,
    pub ghost of_cast: { IsClient T.config.clients client },
    pub ghost listed: { AreListed T.config.clients client 0 receipts } by { listed-prop T.config.clients client 0 receipts },
    pub ghost few: { length receipts ≤ T.ops },
    pub ghost printable: { ArePrintable receipts } by { printable-prop receipts },
}

impl<T: Cast> User<T> {
    /// The user of a client. T names the number of clients, and that of operations.
    pub fn new(clients: u8, client: u8, ops: u64) -> User<T>
        requires clients { clients ≡ T.config.clients }
        requires client { IsClient clients client }
        requires ops { ops ≡ T.ops }
    {
        User {
            clients,
            client,
            ops,
            cast: PhantomData,
        }
    }

    /// Makes its operations one after the other, until one is refused, and closes the node.
    pub fn serve<R: Wait>(self, rt: &R, alloc: Global, node: &Node<T>) -> Told<T> {
        let mut receipts = Sequence::new(alloc);
        let stopped = self.tell_each(rt, alloc, node, &mut receipts).err();
        node.close(rt);
        Told {
            client: self.client,
            receipts,
            stopped,
            cast: PhantomData,
        }
    }

    fn tell_each<R: Wait>(
        &self,
        rt: &R,
        alloc: Global,
        node: &Node<T>,
        receipts: &mut Sequence<Receipt>,
    ) -> Result<(), NodeError>
        requires { receipts.old ≡ [] }
        ensures { AreTold self.now.clients self.now.ops self.now.client receipts.new }
    {
        for place in 0..self.ops {
            let receipt = self.receipt_at(rt, alloc, node, place)?;
            put_receipt(receipts, receipt)?;
        }
        Ok(())
    }

    /// The receipt of the operation at a place of its list, counted from 0.
    fn receipt_at<R: Wait>(
        &self,
        rt: &R,
        alloc: Global,
        node: &Node<T>,
        place: u64,
    ) -> Result<Receipt, NodeError>
        ensures listed { IfOk result (λ receipt. IsListed self.now.clients self.now.client (is_write_turn place) receipt.answer.op) }
        ensures printable { IfOk result (λ receipt. IsPrintable receipt.number receipt.answer) }
    {
        if place % 2 == 0 {
            printable(self.write_at(rt, alloc, node, place)?)
        } else {
            printable(node.read(rt, self.next_client())?)
        }
    }

    fn write_at<R: Wait>(
        &self,
        rt: &R,
        alloc: Global,
        node: &Node<T>,
        place: u64,
    ) -> Result<Receipt, NodeError>
        ensures { IfOk result (λ receipt. receipt.answer.op.kind ≡ Write) }
    {
        match value_at(alloc, self.client, place) {
            Ok(value) => node.write(rt, value.as_slice()),
            Err(_) => Err(NodeError::OutOfMemory),
        }
    }

    /// The client whose register it reads.
    fn next_client(&self) -> u8
        ensures { result ≡ next_client self.now.clients self.now.client }
    {
        if self.client == self.clients {
            1
        } else {
            self.client + 1
        }
    }
}

fn put_receipt(receipts: &mut Sequence<Receipt>, receipt: Receipt) -> Result<(), NodeError>
    ensures ok { OnOk result (receipts.new ≡ receipts.old ++ receipt ∷ []) }
    ensures err { OnErr result (receipts.new ≡ receipts.old) }
{
    match receipts.push(receipt) {
        Ok(()) => Ok(()),
        Err(_) => Err(NodeError::OutOfMemory),
    }
}

/// The text that a user writes: its client, and which of its operations it is, counted from 1.
fn value_at(alloc: Global, client: u8, place: u64) -> Result<Bytes, OutOfMemory> {
    let mut value = Bytes::new(alloc);
    put_number(&mut value, u64::from(client))?;
    value.push(b'-')?;
    put_number(&mut value, place.saturating_add(1))?;
    Ok(value)
}

/// The receipt, where its value is none that is too long: no client has such a value.
fn printable(receipt: Receipt) -> Result<Receipt, NodeError>
    ensures same { IfOk result (λ told. told ≡ receipt) }
    ensures printable { IfOk result (λ told. IsPrintable told.number told.answer) }
{
    if is_printable(&receipt) {
        Ok(receipt)
    } else {
        Err(NodeError::TooLong)
    }
}

fn is_printable(receipt: &Receipt) -> bool
    ensures { IsTrue result → IsPrintable receipt.now.number receipt.now.answer }
{
    let (_number, _asof) = (receipt.number, receipt.answer.asof);
    let (_client, _t) = (receipt.answer.op.name.client, receipt.answer.op.name.t);
    let _register = receipt.answer.op.register;
    match &receipt.answer.value {
        Some(value) => {
            are_bytes(value.as_slice());
            value.len() <= MAX_VALUE_LEN
        }
        None => true,
    }
}

fn are_bytes(bytes: &[u8])
    ensures { AreBytes bytes.now }
{
    let _bytes = bytes;
}
