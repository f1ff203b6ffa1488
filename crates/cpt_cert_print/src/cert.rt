//! Certificates by their parts.

use cpt_cert_form::Claim;
use cpt_sheet::Tree;
use cpt_tables::Tables;
use cpt_task::Occ;

/// A certificate by its parts: those that its claim asks for.
#[derive(Clone, Copy)]
pub struct Cert<'a> {
    pub claim: Claim,
    pub plan: &'a [Occ],
    pub tables: Option<&'a Tables>,
    pub tree: Option<&'a Tree>,
    pub partial: Option<&'a Tree>,
}
