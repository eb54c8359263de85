//! The laws of tables and of merging can be called from any crate.

use pep_table::{Table, laws as table_laws};
use pep_tool::laws;

#[test]
fn laws_of_tables() {
    table_laws::one_table_text();
    table_laws::one_table_of_text();
    table_laws::table_lines_are_utf8();
    table_laws::merge_steps();
    table_laws::union_is_join();
    table_laws::merges_alike();
    table_laws::tree_is_table();
    table_laws::join_all_is_one::<Table>();
    table_laws::joined_is_table();
    table_laws::taken_is_table();
    table_laws::applying_is_table();
    table_laws::own_table();
    table_laws::table_answers();
    table_laws::few_ranges();
    table_laws::one_table_of_demands();
    table_laws::one_verdict();
}

#[test]
fn laws_of_merging() {
    laws::one_text();
    laws::one_table();
    laws::same_requirements();
    laws::same_lines();
    laws::one_text_of_lines();
    laws::printed_in_place();
    laws::one_environment();
    laws::read_is_merged();
    laws::gathered_answers();
    laws::gathered_are_joined();
    laws::group_is_walked();
    laws::one_list();
    laws::refused_list_is_not_read();
    laws::one_project();
    laws::refused_project_is_not_read();
    laws::refused_is_not_accepted();
}
