//! The laws of the crates below about one peer and about the drop round, in one place.
ghost use Rattle.c8_world.specs.checked.Below.{ArePeersLawful};

/// Collects the laws of c8_round and c8_peer that the laws of worlds need.
pub(crate) fn peers_are_lawful()
    ensures { ArePeersLawful }
{
    c8_round::laws::ready_means_all_have_answered();
    c8_round::laws::a_report_changes_one_place();
    c8_peer::laws::openings_are_lawful();
    c8_peer::laws::steps_are_lawful();
    c8_peer::laws::answers_tell_modes();
}
