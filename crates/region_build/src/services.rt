//! The days on which the services of a feed run.

ghost use Rattle.std.specs.Prelude.{◌≡◌, ◌++◌, ◌∷◌, [], ℕ, List, bytes_eq, if◌then◌else◌, IfOk, OnOk};
ghost use Rattle.region_build.specs.inside.ByService.{at, listed, rule_with};
ghost use Rattle.region_build.specs.Services as spec;

use gtfs_tables::{DateRow, Feed, ServiceRow};
use plan_base::DaySet;
use service_days::{Days, ServiceRule};
use std::alloc::{AllocError, Global};
use std::collections::HashMap;

/// The weekly rules of services, and the dates that are added to them and removed from them, by their ids.
#[derive(Drop)]
pub(crate) struct Services<'a> {
    rules: HashMap<&'a [u8], ServiceRule>,
    added: HashMap<&'a [u8], Vec<u32>>,
    removed: HashMap<&'a [u8], Vec<u32>>,
}

/// Keeps the rule of a service, unless an earlier one has its id.
fn note_rule<'a>(
    rules: &mut HashMap<&'a [u8], ServiceRule>,
    service: &'a ServiceRow,
) -> Result<(), AllocError>
    ensures { OnOk result ((id : List ℕ) → at rules.new id ≡ rule_with (at rules.old id) service.now id) }
{
    let id = service.id.as_bytes();
    if rules.get(id).is_none() {
        rules.insert(id, service.rule)?;
    }
    Ok(())
}

fn rules_of(
    alloc: Global,
    services: &[ServiceRow],
) -> Result<HashMap<&[u8], ServiceRule>, AllocError>
    ensures { IfOk result (λ rules. (id : List ℕ) → at rules id ≡ spec.rule_of services.now id) }
{
    let mut rules = HashMap::new(alloc);
    for service in services {
        note_rule(&mut rules, service)?;
    }
    Ok(rules)
}

/// Whether a row adds a date, or whether it removes one.
fn is_change(added: bool, row: &DateRow) -> bool
    ensures { result ≡ spec.is_change added row.now }
{
    if added { row.added } else { !row.added }
}

/// Puts the date of a row to those of its service.
fn note_date<'a>(
    alloc: Global,
    dates: &mut HashMap<&'a [u8], Vec<u32>>,
    row: &'a DateRow,
) -> Result<(), AllocError>
    ensures { OnOk result ((id : List ℕ) → listed dates.new id
        ≡ listed dates.old id ++ (if bytes_eq id row.now.id then row.now.date ∷ [] else [])) }
{
    let id = row.id.as_bytes();
    let mut own = dates.remove(id).unwrap_or(Vec::new(alloc));
    own.push(row.date)?;
    dates.insert(id, own)?;
    Ok(())
}

/// The dates that are added to each service, or those that are removed.
#[tactic(auto, unfolding(crate::specs::Services::dates_of))]
fn dates_of(
    alloc: Global,
    added: bool,
    rows: &[DateRow],
) -> Result<HashMap<&[u8], Vec<u32>>, AllocError>
    ensures { IfOk result (λ dates. (id : List ℕ) → listed dates id ≡ spec.dates_of added id rows.now) }
{
    let mut dates = HashMap::new(alloc);
    for row in rows {
        if is_change(added, row) {
            note_date(alloc, &mut dates, row)?;
        }
    }
    Ok(dates)
}

impl<'a> Services<'a> {
    ghost use Rattle.std.specs.Prelude.{IfOk};
    ghost use Rattle.region_build.specs.inside.ByService.{KnowDays, TellServices, at, listed};
    ghost use Rattle.region_build.specs.Services.{AreDaysBy};

    /// What the tables of a feed say of its services.
    pub(crate) fn of(alloc: Global, feed: &'a Feed) -> Result<Services<'a>, AllocError>
        ensures { IfOk result (λ services. TellServices feed.now (at services.rules)
            (listed services.added) (listed services.removed)) }
    {
        Ok(Services {
            rules: rules_of(alloc, &feed.services)?,
            added: dates_of(alloc, true, &feed.dates)?,
            removed: dates_of(alloc, false, &feed.dates)?,
        })
    }

    /// The days of a region on which the service of this id runs.
    fn run_days(&self, days: &Days, id: &[u8]) -> DaySet
        ensures { AreDaysBy days.now (at self.now.rules id.now)
            (listed self.now.added id.now) (listed self.now.removed id.now) result }
    {
        let rule = self.rules.get(id).copied();
        let added = dates_at(&self.added, id);
        let removed = dates_at(&self.removed, id);
        days.days_of(rule, added, removed)
    }

    /// The days of a region on which the service of this id runs. What is known of other services is looked up, and this
    /// one is put to it.
    pub(crate) fn days_of(
        &self,
        known: &mut HashMap<&'a [u8], DaySet>,
        days: &Days,
        id: &'a [u8],
    ) -> Result<DaySet, AllocError>
        requires { KnowDays days.now (at self.now.rules)
            (listed self.now.added) (listed self.now.removed)
            (at known.old) }
        ensures runs { IfOk result (AreDaysBy days.now (at self.now.rules id.now)
            (listed self.now.added id.now) (listed self.now.removed id.now)) }
        ensures known { IfOk result (λ _. KnowDays days.now (at self.now.rules)
            (listed self.now.added) (listed self.now.removed)
            (at known.new)) }
    {
        if let Some(set) = known.get(id) {
            return Ok(*set);
        }
        let set = self.run_days(days, id);
        known.insert(id, set)?;
        Ok(set)
    }
}

fn dates_at<'m>(dates: &'m HashMap<&[u8], Vec<u32>>, id: &[u8]) -> &'m [u32]
    ensures { result.now ≡ listed dates.now id.now }
{
    match dates.get(id) {
        Some(dates) => dates.as_slice(),
        None => &[],
    }
}
