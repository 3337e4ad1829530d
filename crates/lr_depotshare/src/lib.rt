//! Depots that threads hand to each other.
#![tactic(auto)]

ghost use denote.Param.Send.{IsSend};
ghost use Rattle.lr_roots.specs.contracts.catalog.Catalog as catalogs;
ghost use Rattle.lr_depot.specs.contracts.depot.Depot as depots;
ghost use Rattle.lr_depot.specs.contracts.depot.StartError as start_errors;
ghost use Rattle.lr_depot.specs.contracts.log.DepotLog as depot_logs;

use lr_origin::Origin;
use std::marker::Send;

/// A depot may be handed to another thread where its store may be. So may all that its start and its end hand back: the
/// error of a start, what is left of a depot, and the view.
///
/// A function that is generic in the store calls it first, and then its depots may be handed over.
pub fn depots_cross_threads<O: Origin + Send>()
    ensures depot { IsSend (depots.the_row O.row O.Origin) }
    ensures error { IsSend (start_errors.the_row O.row) }
    ensures left { IsSend depot_logs.the_row }
    ensures view { IsSend catalogs.the_row }
{}
