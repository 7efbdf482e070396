ghost use Rattle.std.specs.Prelude.{◌≡◌, ◌^◌, ◌<◌, length, replicate, IfOk};
ghost use Rattle.faust_types.specs.Messages.{unmade};
ghost use Rattle.faust_types.specs.Ranges.{IsAnnouncedFor};
ghost use Rattle.faust_types.specs.Clients.{IsClientCount, IsClient};
ghost use Rattle.faust_types.specs.Versions.{clients_of};
ghost use Rattle.faust_agent.specs.State.{completed_count, cut_at, cut_up_to, first_client, greater_of, greatest, greatest_up_to, is_idle, is_less, other_register_after, register_after, slot_at};
ghost use Rattle.faust_agent.specs.InRange.{HoldsEach};

use faust_types::{
    Commit, Cut, Digest, Known, MAX_TIMESTAMP, Notice, Numbers, Operation, OutOfMemory, Sequence,
    Version,
};
use std::alloc::Global;

/// What a client measures by moments: for each client when it last had news of it, the moment of its last tick,
/// when it last began a dummy read, and the register of the next one.
#[derive(Debug, Drop)]
pub struct Timers {
    pub news: Numbers,
    pub now: u64,
    pub dummy_at: u64,
    pub next_dummy: u8,
}

/// What a client holds: of each client the greatest version that it heard, its own among them; the digest of the
/// value that it submitted last, the operation that it waits for, the notice of a broken check, and the COMMIT that
/// is to ride on its next SUBMIT, each of these or none; and its timers.
#[derive(Debug, Drop)]
pub struct Client {
    pub heard: Sequence<Known>,
    pub last: Option<Digest>,
    pub waiting: Option<Operation>,
    pub notice: Option<Notice>,
    pub held: Option<Commit>,
    pub timers: Timers,
}

impl Client {
    /// What client `me` of `n` holds at first.
    pub fn new(alloc: Global, n: u8, me: u8) -> Result<Client, OutOfMemory>
        requires count { IsClientCount n }
        requires client { IsClient n me }
        ensures { IfOk result (λ client. client ≡ first_client n me) }
    {
        let heard = unmade_versions(alloc, n)?;
        let timers = Timers {
            news: Sequence::from_vec(Vec::from_elem(alloc, 0, usize::from(n))?),
            now: 0,
            dummy_at: 0,
            next_dummy: register_after(n, me),
        };
        Ok(Client {
            heard,
            last: None,
            waiting: None,
            notice: None,
            held: None,
            timers,
        })
    }

    /// The allocator of what it holds.
    pub fn allocator(&self) -> Global {
        self.heard.allocator()
    }

    /// The greatest version heard from client k.
    pub fn slot(&self, k: u8) -> &Known
        requires { IsClient (length self.now.heard) k }
        ensures { result.now ≡ slot_at self.now k }
    {
        self.heard.at(usize::from(k) - 1)
    }

    /// How many operations of client `me` are complete.
    pub fn completed_count(&self, n: u8, me: u8) -> u64
        requires versions { HoldsEach n self.now.heard }
        requires client { IsClient n me }
        ensures count { result ≡ completed_count me self.now }
        ensures below { result < 2 ^ 40 }
    {
        self.slot(me).version.at(me)
    }

    /// Whether no operation is pending, no check is broken, and there is a next number.
    pub fn is_idle(&self, n: u8, me: u8) -> bool
        requires versions { HoldsEach n self.now.heard }
        requires client { IsClient n me }
        ensures { result ≡ is_idle me self.now }
    {
        self.waiting.is_none()
            && self.notice.is_none()
            && self.completed_count(n, me) < MAX_TIMESTAMP
    }

    /// The greatest known version of n clients; of equal ones the first.
    #[tactic(auto, unfolding(crate::specs::State::greatest))]
    pub fn greatest(&self, n: u8) -> &Known
        requires versions { HoldsEach n self.now.heard }
        ensures value { result.now ≡ greatest n self.now }
        ensures in_range { IsAnnouncedFor n result.now }
    {
        self.slot(self.greatest_at(n))
    }

    fn greatest_at(&self, n: u8) -> u8
        requires versions { HoldsEach n self.now.heard }
        ensures place { result ≡ greatest_up_to self.now n }
        ensures client { IsClient n result }
    {
        let mut best = 1;
        for before in 0..n {
            best = self.greater_of(n, best, before + 1);
        }
        best
    }

    fn greater_of(&self, n: u8, best: u8, k: u8) -> u8
        requires versions { HoldsEach n self.now.heard }
        requires best { IsClient n best }
        requires client { IsClient n k }
        ensures place { result ≡ greater_of self.now best k }
        ensures client { IsClient n result }
    {
        if is_less(&self.slot(best).version, &self.slot(k).version) {
            k
        } else {
            best
        }
    }

    /// The cut's entry for client j: how many own completed operations the version heard from j counts.
    pub fn cut_at(&self, n: u8, me: u8, j: u8) -> u64
        requires versions { HoldsEach n self.now.heard }
        requires client { IsClient n me }
        requires other { IsClient n j }
        ensures { result ≡ cut_at me self.now j }
    {
        self.slot(j).version.at(me).min(self.completed_count(n, me))
    }

    /// The cut.
    pub fn cut(&self, alloc: Global, n: u8, me: u8) -> Result<Cut, OutOfMemory>
        requires versions { HoldsEach n self.now.heard }
        requires client { IsClient n me }
        ensures { IfOk result (λ cut. cut ≡ cut_up_to me self.now n) }
    {
        let mut cut = Cut::new(alloc);
        cut.reserve(usize::from(n))?;
        for before in 0..n {
            cut.push(self.cut_at(n, me, before + 1))?;
        }
        Ok(cut)
    }

    /// Writes the cut into a list of its length. It takes no memory.
    pub fn put_cut(&self, n: u8, me: u8, cut: &mut Cut)
        requires versions { HoldsEach n self.now.heard }
        requires client { IsClient n me }
        requires room { length cut.old ≡ n }
        ensures { cut.new ≡ cut_up_to me self.now n }
    {
        for before in 0..n {
            cut.set(usize::from(before), self.cut_at(n, me, before + 1));
        }
    }
}

fn unmade_versions(alloc: Global, n: u8) -> Result<Sequence<Known>, OutOfMemory>
    requires { IsClientCount n }
    ensures { IfOk result (λ heard. heard ≡ replicate n (unmade n)) }
{
    let mut heard = Sequence::new(alloc);
    heard.reserve(usize::from(n))?;
    for _ in 0..n {
        heard.push(Known::initial(alloc, n)?)?;
    }
    Ok(heard)
}

/// Whether version v is less than w.
pub fn is_less(v: &Version, w: &Version) -> bool
    requires { clients_of v.now ≡ clients_of w.now }
    ensures { result ≡ is_less v.now w.now }
{
    v.is_at_most(w) && !w.is_at_most(v)
}

fn register_after(n: u8, r: u8) -> u8
    requires count { IsClientCount n }
    requires register { IsClient n r }
    ensures value { result ≡ register_after n r }
    ensures register { IsClient n result }
{
    if r == n { 1 } else { r + 1 }
}

/// The register behind r, from n to 1, with that of client `me` left out.
pub fn other_register_after(n: u8, me: u8, r: u8) -> u8
    requires count { IsClientCount n }
    requires client { IsClient n me }
    requires register { IsClient n r }
    ensures value { result ≡ other_register_after n me r }
    ensures register { IsClient n result }
{
    let next = register_after(n, r);
    if next == me {
        register_after(n, me)
    } else {
        next
    }
}
