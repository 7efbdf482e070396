ghost use Rattle.std.specs.Prelude.{◌≡◌, ◌↔◌, IsTrue};
ghost use Rattle.faust_types.specs.Versions.{clients_of};
ghost use Rattle.faust_server.specs.Ahead.{IsAhead, covers, is_ahead};

use faust_types::Version;

/// Whether the timestamps of the first version are at least those of the second in every place, and differ.
pub fn is_ahead(v: &Version, w: &Version) -> bool
    requires { clients_of v.now ≡ clients_of w.now }
    ensures test { result ≡ is_ahead v.now.timestamps w.now.timestamps }
    ensures meaning { IsTrue result ↔ IsAhead v.now.timestamps w.now.timestamps }
{
    covers(v, w) && !covers(w, v)
}

/// Whether the timestamps of the first version are at least those of the second in every place.
#[tactic(auto, unfolding(crate::specs::Ahead::covers))]
fn covers(v: &Version, w: &Version) -> bool
    requires { clients_of v.now ≡ clients_of w.now }
    ensures { result ≡ covers v.now.timestamps w.now.timestamps }
{
    let mut holds = true;
    for before in 0..v.clients() {
        holds = holds && w.at(before + 1) <= v.at(before + 1);
    }
    holds
}
