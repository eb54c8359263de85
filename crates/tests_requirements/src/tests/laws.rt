//! The laws of versions, clauses, sets and requirement lines can be called from any crate.

use pep_clause::laws as clause_laws;
use pep_require::laws as require_laws;
use pep_version::laws as version_laws;

#[test]
fn laws() {
    version_laws::order_is_total();
    version_laws::order_of_places();
    version_laws::one_place();
    version_laws::one_version();
    version_laws::text_is_read();
    version_laws::text_bytes();
    clause_laws::one_clause();
    clause_laws::one_answer();
    clause_laws::clause_text_is_read();
    clause_laws::valid_clause_is_read();
    clause_laws::one_list();
    clause_laws::one_list_of_versions();
    clause_laws::between_cuts();
    clause_laws::ends_of_operators();
    clause_laws::place_is_in();
    require_laws::one_requirement();
    require_laws::refused_is_not_read();
    require_laws::one_fault();
    require_laws::requirement_text_is_read();
}
