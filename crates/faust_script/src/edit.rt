use faust_types::{Bytes, Kind};

/// A change of a reply on its way to a client. `K`, `J` are clients, `Q` is the place of a tuple in the pending list
/// from 1 on, `T` a timestamp from 1 to 2^40 - 1; the version of c is the version that the reply begins with, the
/// version of j that of its read part.
#[derive(Debug, Drop)]
pub enum Edit {
    /// `c K`: c becomes K.
    C(u8),
    /// `v K T`: `V[K]` of the version of c becomes T.
    V(u8, u64),
    /// `m K`: a bit of `M[K]` of the version of c turns.
    M(u8),
    /// `ctag`: a bit of the commit tag of c turns.
    Ctag,
    /// `add K KIND J`: a tuple of K on register J is appended.
    Add(u8, Kind, u8),
    /// `drop Q`: tuple Q is taken out.
    DropTuple(usize),
    /// `swap Q`: tuples Q and Q + 1 change places.
    Swap(usize),
    /// `ltag Q`: a bit of tuple Q's tag turns.
    Ltag(usize),
    /// `proof K`: a bit of `P[K]` turns.
    Proof(u8),
    /// `noproof K`: `P[K]` becomes absent.
    Noproof(u8),
    /// `jv K T`: `V[K]` of the version of j becomes T.
    Jv(u8, u64),
    /// `jtag`: a bit of the commit tag of j turns.
    Jtag,
    /// `t T`: the timestamp of the memory becomes T.
    T(u64),
    /// `value VALUE`: the value of the memory becomes this one.
    Value(Bytes),
    /// `dtag`: a bit of the data tag turns.
    Dtag,
    /// `unread`: the read part is taken out.
    Unread,
}
