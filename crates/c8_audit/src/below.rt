//! Laws of c8_world and of the crates below it, in one place.
ghost use Rattle.c8_world.specs.checked.Below.{ArePeersLawful};
ghost use Rattle.c8_audit.specs.checked.Below.{AreWorldsLawful};

/// Collects the laws of c8_world that the laws of audits need.
pub(crate) fn worlds_are_lawful()
    ensures { AreWorldsLawful }
{
    c8_world::laws::undropped_peers_agree();
    c8_world::laws::confirmed_inputs_were_entered();
    c8_world::laws::checkpoints_are_true();
    c8_world::laws::openings_find_journals();
}

/// Collects the laws of c8_round and c8_peer on which those of c8_world rest.
pub(crate) fn peers_are_lawful()
    ensures { ArePeersLawful }
{
    c8_round::laws::ready_means_all_have_answered();
    c8_round::laws::a_report_changes_one_place();
    c8_peer::laws::openings_are_lawful();
    c8_peer::laws::steps_are_lawful();
    c8_peer::laws::answers_tell_modes();
}
