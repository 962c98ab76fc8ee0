//! What the statements mean under the schema of a store.
ghost use Rattle.sqlite.specs.Listing.{understood};
ghost use Rattle.sqlite.specs.Given.{IsPlain};
ghost use Rattle.store_tables.specs.Tables.{stable_schema};
ghost use Rattle.store_tables.specs.Texts as text;

/// Each statement that writes is one statement, understood under the schema of a store, and shows no rows.
pub fn statements_stand_alone()
    ensures decide { IsPlain (understood stable_schema text.decide_text) }
    ensures count { IsPlain (understood stable_schema text.count_text) }
    ensures next_top { IsPlain (understood stable_schema text.next_text) }
    ensures base { IsPlain (understood stable_schema text.base_text) }
    ensures base_run { IsPlain (understood stable_schema text.base_run_text) }
    ensures discard { IsPlain (understood stable_schema text.discard_text) }
    ensures home { IsPlain (understood stable_schema text.record_text) }
    ensures value { IsPlain (understood stable_schema text.value_text) }
    ensures value_run { IsPlain (understood stable_schema text.value_run_text) }
    ensures delta { IsPlain (understood stable_schema text.delta_text) }
    ensures forget { IsPlain (understood stable_schema text.forget_text) }
{}
