ghost use Rattle.std.specs.Prelude.{◌≡◌, IfOk};
ghost use Rattle.std.specs.Option.{option_copied};
ghost use Rattle.faust_types.specs.Clients.{IsClient};
ghost use Rattle.faust_types.specs.Versions.{clients_of};
ghost use Rattle.faust_types.specs.Ranges.{IsConfig, IsPeerFor};
ghost use Rattle.faust_tags.specs.Bodies.{data_body, submit_body, tag_of};
ghost use Rattle.faust_agent.specs.Table.{is_signed, message_to, own_proof, own_tag};
ghost use Rattle.faust_agent.specs.Outcomes.{spelled_post};
ghost use Rattle.faust_agent.specs.InRange.{IsOther};

use faust_hash::{PreparedKey, same};
use faust_tags::{
    commit_tag_under, data_tag_under, peer_tag_under, proof_tag_under, submit_tag_under,
};
use faust_types::{
    Config, Digest, Kind, Message, OutOfMemory, Peer, PeerMessage, Post, Tag, Version,
};
use faust_wire::encode;
use std::alloc::Global;

/// Who a client is: what all clients of its run share, their key made ready for tags, and its own number.
#[derive(Drop)]
pub struct Identity {
    pub config: Config,
    pub key: PreparedKey,
    pub me: u8,
    ghost in_range: { IsConfig config },
    ghost member: { IsClient config.clients me },
    ghost prepared: { key ≡ config.key },
}

impl Identity {
    /// Client `me` of a run with this config, whose key was made ready once.
    pub fn new(config: &Config, me: u8, key: PreparedKey) -> Result<Identity, OutOfMemory>
        requires config { IsConfig config.now }
        requires client { IsClient config.now.clients me }
        requires prepared { key ≡ config.now.key }
        ensures config { IfOk result (λ id. id.config ≡ config.now) }
        ensures client { IfOk result (λ id. id.me ≡ me) }
    {
        let config = config.copy()?;
        Ok(Identity { config, key, me })
    }

    /// For how many clients the run is.
    pub fn clients(&self) -> u8
        ensures count { result ≡ self.now.config.clients }
        ensures config { IsConfig self.now.config }
        ensures client { IsClient self.now.config.clients self.now.me }
    {
        self.config.clients
    }

    /// The submit tag of the own operation t.
    pub fn submit_tag(&self, kind: Kind, register: u8, t: u64) -> Tag
        ensures { result ≡ tag_of self.now.config.key (submit_body self.now.me kind register t) }
    {
        submit_tag_under(&self.key, self.me, kind, register, t)
    }

    /// The data tag of the own operation t.
    pub fn data_tag(&self, t: u64, value: Option<&Digest>) -> Tag
        ensures { result ≡ tag_of self.now.config.key (data_body self.now.me t (option_copied value.entry)) }
    {
        data_tag_under(&self.key, self.me, t, value)
    }

    /// The commit tag of an own version.
    pub fn commit_tag(&self, alloc: Global, version: &Version) -> Result<Tag, OutOfMemory>
        ensures { IfOk result (λ tag. tag ≡ own_tag self.now.config self.now.me version.now) }
    {
        commit_tag_under(alloc, &self.key, self.me, version)
    }

    /// The proof tag of an own version.
    pub fn proof_tag(&self, version: &Version) -> Tag
        requires { self.now.config.clients ≡ clients_of version.now }
        ensures { result ≡ own_proof self.now.config self.now.me version.now }
    {
        let digest = version.digest(self.me).unwrap_or([0; 32]);
        proof_tag_under(&self.key, self.me, &digest)
    }

    /// Whether the sender of a message made its tag.
    pub fn is_signed(&self, alloc: Global, message: &PeerMessage) -> Result<bool, OutOfMemory>
        ensures { IfOk result (λ signed. signed ≡ is_signed self.now.config message.now) }
    {
        let right = peer_tag_under(alloc, &self.key, self.config.clients, message)?;
        Ok(same(&message.tag, &right))
    }

    /// A message to client j, tagged and spelled.
    pub fn post(&self, alloc: Global, j: u8, peer: Peer) -> Result<Post, OutOfMemory>
        requires other { IsOther self.now.config.clients self.now.me j }
        requires peer { IsPeerFor self.now.config.clients peer }
        ensures { IfOk result (λ post. post ≡ spelled_post self.now.config.wire (message_to self.now.config self.now.me peer j)) }
    {
        let n = self.config.clients;
        let mut message = PeerMessage {
            from: self.me,
            to: j,
            peer,
            tag: [0; 32],
        };
        message.tag = peer_tag_under(alloc, &self.key, n, &message)?;
        let bytes = encode(alloc, self.config.wire, n, &Message::Peer(message))?;
        Ok(Post { to: j, bytes })
    }
}
