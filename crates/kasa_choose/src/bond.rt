// Bonds on the left sides of rules.
use kasa_num::{NodeNo, SiteNo};

// A bond between two left nodes of a rule, seen from the first.
#[derive(Clone, Copy)]
pub(crate) struct Bond {
    pub(crate) node: NodeNo,
    pub(crate) site: SiteNo,
    pub(crate) partner: NodeNo,
    pub(crate) partner_site: SiteNo,
}
