//! The laws of replies, together.
ghost use Rattle.lr_world.specs.Laws.{Laws};

/// Replies are admitted, lists gain them, logs stay made, and what actors hold follows from their own lists.
pub(crate) fn laws()
    ensures { Laws }
{
    lr_replies::replies_are_admitted();
    lr_replies::lists_gain();
    lr_replies::logs_stay_made();
    lr_replies::leases_stay_out();
    lr_replies::looks_hold_none();
    lr_replies::ended_hold_none();
    lr_history::ended_actors_hold_nothing();
    lr_history::calls_fit();
    lr_claims::cache_logs_are_legal();
}
