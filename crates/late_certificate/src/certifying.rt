//! The certificate of a query with a deadline.

ghost use Rattle.std.specs.Prelude.{◌≡◌, ◌<◌, ◌≤◌, ◌^◌, IfSome, Some, length};
ghost use Rattle.plain_texts.specs.Lines.{IsLine};
ghost use Rattle.mode_expression.specs.Form.{form_of, IsUsable};
ghost use Rattle.product_search.specs.Limits.{IfEnded, IfStopped};
ghost use Rattle.journey.specs.Best.{asked_by};
ghost use Rattle.journey.specs.Queries.{IsQuery};
ghost use Rattle.latest_departure.specs.Limits.{LateSearchHasMore};
ghost use Rattle.late_certificate.specs.Certified.{IsLateCertificateOf};

use crate::late::LateCertificate;
use journey::Query;
use latest_departure::{Backwards, Late, LateRoom, latest_within};
use product_search::Limited;
use std::alloc::{AllocError, Global};

/// The late certificate of a query: a journey that starts at the latest departure, or that none is in time, and the labels of
/// the search. It is valid, so it proves what it claims. Where the search has more labels than the limit, if there is one, and
/// there alone, it is stopped. The table of what leads to each node and the room serve many queries.
pub fn certify_late_within(
    alloc: Global,
    room: &mut LateRoom,
    backwards: &Backwards<'_>,
    query: Query,
    limit: Option<u64>,
) -> Result<Limited<LateCertificate>, AllocError>
    requires asks { IsQuery backwards.now.network query.line query.from query.to query.depart
        (form_of query.expr) }
    requires usable { IsUsable (form_of query.expr) }
    requires soon { query.depart < 2 ^ 64 }
    requires line { IsLine query.line }
    ensures certificate { IfEnded result (IsLateCertificateOf backwards.now.network query.line) }
    ensures few { IfEnded result (λ c. IfSome limit (λ most. length c.labels ≤ most)) }
    ensures stopped { IfStopped result (λ most. (limit ≡ Some most)
        × LateSearchHasMore backwards.now.network (asked_by query) most) }
{
    let network = backwards.network();
    network.known();
    network.days().known();
    let found = latest_within(alloc, room, backwards, &query, limit)?;
    let late = match found {
        Limited::Ended(late) => late,
        Limited::Stopped(most) => return Ok(Limited::Stopped(most)),
    };
    let Late { journey, labels } = late;
    Ok(Limited::Ended(LateCertificate {
        line: query.line,
        result: journey,
        labels,
    }))
}
