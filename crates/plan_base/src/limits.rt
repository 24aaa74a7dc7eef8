//! How many things of each kind a network, its files and its timetable may have.

ghost use Rattle.plan_base.specs.Limits.{AreWithin};

/// The most things of each kind that a call takes. A number equal to its limit is allowed.
///
/// No field is above that of [`Caps::FULL`]; the type keeps this. Small limits are for tests.
#[derive(Clone, Copy, Debug, PartialEq, Eq)]
pub struct Caps {
    /// Nodes of the network.
    pub nodes: u64,
    /// Road arcs of the network.
    pub arcs: u64,
    /// Links of the network.
    pub links: u64,
    /// Stops.
    pub stops: u64,
    /// Trips.
    pub trips: u64,
    /// Calls of all trips together.
    pub calls: u64,
    /// Nodes of an OSM file that have a place.
    pub osm_nodes: u64,
    /// Ways of an OSM file.
    pub ways: u64,
    /// References to nodes of all ways together.
    pub refs: u64,
    /// Routes of a feed.
    pub routes: u64,
    /// Services of a feed.
    pub services: u64,
    /// Dates that a feed adds to services or removes from them.
    pub dates: u64,
    pub ghost within: { AreWithin nodes arcs links stops trips calls osm_nodes ways refs routes services dates },
}

impl Caps {
    ghost use Rattle.std.specs.Prelude.{◌≡◌, ◌≤◌, ◌≢◌};
    ghost use Rattle.plan_base.specs.declared.limits.Kind.{Kind};
    ghost use Rattle.plan_base.specs.CapsByKind.{cap_of};
    ghost use Rattle.plan_base.specs.FullCaps.{full_cap_of};

    /// The greatest limits, which the programs use.
    pub const FULL: Caps = Caps {
        nodes: 16_777_216,
        arcs: 67_108_864,
        links: 8_388_608,
        stops: 1_048_576,
        trips: 1_048_576,
        calls: 33_554_432,
        osm_nodes: 33_554_432,
        ways: 8_388_608,
        refs: 67_108_864,
        routes: 1_048_576,
        services: 1_048_576,
        dates: 16_777_216,
    };

    /// The limit of things of this kind.
    pub fn most(&self, kind: Kind) -> u64
        ensures { result ≡ cap_of self.now kind }
    {
        match kind {
            Kind::Nodes => self.nodes,
            Kind::Arcs => self.arcs,
            Kind::Links => self.links,
            Kind::Stops => self.stops,
            Kind::Trips => self.trips,
            Kind::Calls => self.calls,
            Kind::OsmNodes => self.osm_nodes,
            Kind::Ways => self.ways,
            Kind::Refs => self.refs,
            Kind::Routes => self.routes,
            Kind::Services => self.services,
            Kind::Dates => self.dates,
        }
    }

    /// These limits with another one for things of this kind.
    pub fn with_most(self, kind: Kind, most: u64) -> Caps
        requires { most ≤ full_cap_of kind }
        ensures most { cap_of result kind ≡ most }
        ensures others { (other : Kind) → other ≢ kind → cap_of result other ≡ cap_of self other }
    {
        let mut caps = self;
        match kind {
            Kind::Nodes => caps.nodes = most,
            Kind::Arcs => caps.arcs = most,
            Kind::Links => caps.links = most,
            Kind::Stops => caps.stops = most,
            Kind::Trips => caps.trips = most,
            Kind::Calls => caps.calls = most,
            Kind::OsmNodes => caps.osm_nodes = most,
            Kind::Ways => caps.ways = most,
            Kind::Refs => caps.refs = most,
            Kind::Routes => caps.routes = most,
            Kind::Services => caps.services = most,
            Kind::Dates => caps.dates = most,
        }
        caps
    }
}

/// What there were too many of.
#[derive(Clone, Copy, Debug, PartialEq, Eq)]
pub enum Kind {
    Nodes,
    Arcs,
    Links,
    Stops,
    Trips,
    Calls,
    OsmNodes,
    Ways,
    Refs,
    Routes,
    Services,
    Dates,
}

impl Kind {
    ghost use Rattle.std.specs.Prelude.{◌≡◌};
    ghost use Rattle.plan_base.specs.FullCaps.{full_cap_of};

    /// The greatest limit of things of this kind.
    pub fn most(self) -> u64
        ensures { result ≡ full_cap_of self }
    {
        Caps::FULL.most(self)
    }

    /// What things of this kind are called, where there are many.
    pub fn name(self) -> &'static str {
        match self {
            Kind::Nodes => "nodes",
            Kind::Arcs => "road arcs",
            Kind::Links => "links",
            Kind::Stops => "stops",
            Kind::Trips => "trips",
            Kind::Calls => "calls of trips",
            Kind::OsmNodes => "OSM nodes with a place",
            Kind::Ways => "OSM ways",
            Kind::Refs => "nodes of OSM ways",
            Kind::Routes => "routes",
            Kind::Services => "services",
            Kind::Dates => "added and removed dates",
        }
    }
}
