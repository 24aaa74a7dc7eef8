//! Query lines.

use case_script::Answer;
use journey::{Query, copies, read_query};
use mode_network::{Endpoint, Network};

/// `query REGION LINE`: what a query line asks for, or its fault.
pub fn query(out: &mut Answer, network: &Network, line: &[u8]) {
    match read_query(out.alloc(), network, line) {
        Ok(query) => print_query(out, network, &query),
        Err(fault) => out.debug("", &fault),
    }
}

fn print_query(out: &mut Answer, network: &Network, query: &Query) {
    print_copies(out, network, "from ", &query.from);
    print_copies(out, network, " to ", &query.to);
    out.shown(" at ", query.depart);
    out.shown(" by ", &query.expr);
}

fn print_copies(out: &mut Answer, network: &Network, before: &str, endpoint: &Endpoint) {
    if let Ok(nodes) = copies(out.alloc(), network, endpoint) {
        out.debug(before, &nodes);
    }
}
