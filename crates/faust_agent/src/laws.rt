//! What the client's table keeps, and what a deed tells. Each function has an empty body, and its contract is the law.
ghost use Rattle.std.specs.Prelude.{ℕ, List, IfSome};
ghost use Rattle.std.specs.List.{AllByRecursion};
ghost use Rattle.faust_types.specs.Clients.{IsClient, IsClientCount};
ghost use Rattle.faust_types.specs.Ranges.{AreBytes, IsPeerMessageFor, IsReplyFor};
ghost use Rattle.faust_types.specs.declared.config.Config.{Config};
ghost use Rattle.faust_agent.specs.State.{first_client};
ghost use Rattle.faust_agent.specs.Deeds.{Event, peer_in, reply_in};
ghost use Rattle.faust_agent.specs.Table.{after, deed_of, posts_of, sent_of};
ghost use Rattle.faust_agent.specs.InRange.{IsClientOf, IsDeedFor, IsSentFor};
ghost use Rattle.faust_agent.specs.Tells.{IsEventFor, Tells};
ghost use Rattle.faust_agent.specs.declared.client.Client.{Client};
ghost use Rattle.faust_agent.specs.declared.deed.Deed.{Deed};

/// Each deed tells at which event it is done, and which checks were made before.
pub fn deeds_tell_why()
    ensures { (config : Config) (me : ℕ) (st : Client) (event : Event) → Tells config me st event (deed_of config me st event) }
{}

/// What a client holds is in range at first, and stays so at each event.
pub fn clients_stay_in_range()
    ensures first { (config : Config) (me : ℕ) → IsClientCount config.clients → IsClient config.clients me →
        IsClientOf config me (first_client config.clients me) }
    ensures deed { (config : Config) (me : ℕ) (st : Client) (event : Event) → IsClient config.clients me → IsClientOf config me st →
        IsEventFor config.clients event → IsDeedFor config me st (deed_of config me st event) }
    ensures later { (config : Config) (me : ℕ) (st : Client) (event : Event) → IsClient config.clients me → IsClientOf config me st →
        IsEventFor config.clients event → IsClientOf config me (after config me st (deed_of config me st event)) }
{}

/// What bytes spell is in range.
pub fn messages_are_in_range()
    ensures reply { (config : Config) (bytes : List ℕ) → IsClientCount config.clients → AreBytes bytes →
        IfSome (reply_in config bytes) (IsReplyFor config.clients) }
    ensures peer { (config : Config) (bytes : List ℕ) → IsClientCount config.clients → AreBytes bytes →
        IfSome (peer_in config bytes) (IsPeerMessageFor config.clients) }
{}

/// What a client sends is in range, so that it is read as it was sent.
pub fn sent_messages_are_in_range()
    ensures server { (config : Config) (me : ℕ) (st : Client) (deed : Deed) → IsClientOf config me st → IsDeedFor config me st deed →
        IfSome (sent_of config me st deed) (IsSentFor config) }
    ensures clients { (config : Config) (me : ℕ) (st : Client) (deed : Deed) → IsClient config.clients me → IsClientOf config me st →
        IsDeedFor config me st deed → AllByRecursion (IsPeerMessageFor config.clients) (posts_of config me st deed) }
{}
