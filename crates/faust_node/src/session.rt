// Which counter and which config a run has.
ghost use Rattle.faust_types.specs.declared.config.Config.{Config};
ghost use Rattle.faust_node.specs.Sessions.{no_config};

use faust_ticket::Counter;
use std::marker::Brand;

/// Names one counter and one config, for proofs alone. All that is said of a `NodeCell<T>` is said of these.
pub trait Session: Counter {
    ghost config: { Config };
}

impl Session for Brand {
    ghost config = { no_config };
}
