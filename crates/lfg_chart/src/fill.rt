ghost use Rattle.std.specs.Prelude.{◌≡◌, ◌↔◌, ℕ, ◌<◌, ◌≤◌, false, length};
ghost use Rattle.lfg_chart.specs.declared.links.Link.{Link};
ghost use Rattle.lfg_chart.specs.declared.links.RuleLinks.{RuleLinks};
ghost use Rattle.lfg_chart.specs.declared.table.Row.{Row};
ghost use Rattle.lfg_chart.specs.Filling.{Filled, IsCopy, IsJoin, IsLast, IsLink, IsRule, IsStart, MeetsAll, MeetsCopy, MeetsJoin, MeetsLast, MeetsLasts, MeetsLink, MeetsLinks, MeetsRule, MeetsRules, MeetsStart, Ready, Turn};
ghost use Rattle.lfg_chart.specs.Places.{Has};
ghost use Rattle.lfg_chart.specs.Tables.{Holds, IsRow};
ghost use Rattle.lfg_model.specs.Lists.{In};

use crate::links::{Link, RuleLinks};
use crate::places::Places;
use crate::table::{Row, Table};

/// Lets a row lead from a place to that place itself.
fn start_at(rules: &[Option<RuleLinks>], gives: Row, table: &mut Table, from: usize) -> bool
    requires ready { Ready rules.now table.old }
    requires within { from < table.old.size }
    requires of { IsStart rules.now gives }
    ensures turn { Turn rules.now table.old table.new result }
    ensures met { result ≡ false → MeetsStart gives table.old from }
{
    table.add(gives, from, Places::one(from))
}

/// Lets a row lead from a place wherever another does.
fn copy_at(
    rules: &[Option<RuleLinks>],
    takes: Row,
    gives: Row,
    table: &mut Table,
    from: usize,
) -> bool
    requires ready { Ready rules.now table.old }
    requires within { from < table.old.size }
    requires of { IsCopy rules.now takes gives }
    ensures turn { Turn rules.now table.old table.new result }
    ensures met { result ≡ false → MeetsCopy takes gives table.old from }
{
    let places = table.places(takes, from);
    table.add(gives, from, places)
}

/// Where two rows lead one behind the other.
fn joined(left: Row, right: Row, table: &Table, from: usize) -> Places
    requires left { IsRow table.now left }
    requires right { IsRow table.now right }
    requires few { table.now.size ≤ 128 }
    requires within { from < table.now.size }
    ensures { (to : ℕ) → to < table.now.size → Has result to ↔ ((mid : ℕ) × Holds table.now left from mid × Holds table.now right mid to) }
{
    let middles = table.places(left, from);
    let mut ends = Places::none();
    for mid in 0..table.size() {
        if middles.has(mid) {
            ends = ends.join(table.places(right, mid));
        }
    }
    ends
}

/// Lets a row lead from a place wherever two others lead one behind the other.
fn join_at(
    rules: &[Option<RuleLinks>],
    left: Row,
    right: Row,
    gives: Row,
    table: &mut Table,
    from: usize,
) -> bool
    requires ready { Ready rules.now table.old }
    requires within { from < table.old.size }
    requires of { IsJoin rules.now left right gives }
    ensures turn { Turn rules.now table.old table.new result }
    ensures met { result ≡ false → MeetsJoin left right gives table.old from }
{
    let places = joined(left, right, table, from);
    table.add(gives, from, places)
}

/// Uses a link of a category's rule from a place.
fn link_at(
    rules: &[Option<RuleLinks>],
    cat: usize,
    link: Link,
    table: &mut Table,
    from: usize,
) -> bool
    requires ready { Ready rules.now table.old }
    requires within { from < table.old.size }
    requires of { IsLink rules.now cat link }
    ensures turn { Turn rules.now table.old table.new result }
    ensures met { result ≡ false → MeetsLink cat link table.old from }
{
    let read_before = Row::Read {
        cat,
        item: link.before,
    };
    let read_item = Row::Read {
        cat,
        item: link.item,
    };
    let left_before = Row::Left {
        cat,
        item: link.before,
    };
    let left_item = Row::Left {
        cat,
        item: link.item,
    };
    match link.cat {
        None => {
            let read = copy_at(rules, read_before, read_item, table, from);
            let left = copy_at(rules, left_item, left_before, table, from);
            read | left
        }
        Some(below) => {
            let whole = Row::Whole { cat: below };
            let read = join_at(rules, read_before, whole, read_item, table, from);
            let left = join_at(rules, whole, left_item, left_before, table, from);
            read | left
        }
    }
}

/// Uses links of a category's rule from a place.
fn links_at(
    rules: &[Option<RuleLinks>],
    cat: usize,
    links: &[Link],
    table: &mut Table,
    from: usize,
) -> bool
    requires ready { Ready rules.now table.old }
    requires within { from < table.old.size }
    requires of { (link : Link) → In link links.now → IsLink rules.now cat link }
    ensures turn { Turn rules.now table.old table.new result }
    ensures met { result ≡ false → MeetsLinks cat links.now table.old from }
{
    let mut changed = false;
    for link in links {
        let more = link_at(rules, cat, *link, table, from);
        changed = changed | more;
    }
    changed
}

/// Uses an item that may end a category's rule from a place.
fn last_at(
    rules: &[Option<RuleLinks>],
    cat: usize,
    item: u32,
    table: &mut Table,
    from: usize,
) -> bool
    requires ready { Ready rules.now table.old }
    requires within { from < table.old.size }
    requires of { IsLast rules.now cat item }
    ensures turn { Turn rules.now table.old table.new result }
    ensures met { result ≡ false → MeetsLast cat item table.old from }
{
    let read = copy_at(
        rules,
        Row::Read { cat, item },
        Row::Whole { cat },
        table,
        from,
    );
    let left = start_at(rules, Row::Left { cat, item }, table, from);
    read | left
}

/// Uses items that may end a category's rule from a place.
fn lasts_at(
    rules: &[Option<RuleLinks>],
    cat: usize,
    items: &[u32],
    table: &mut Table,
    from: usize,
) -> bool
    requires ready { Ready rules.now table.old }
    requires within { from < table.old.size }
    requires of { (item : ℕ) → In item items.now → IsLast rules.now cat item }
    ensures turn { Turn rules.now table.old table.new result }
    ensures met { result ≡ false → MeetsLasts cat items.now table.old from }
{
    let mut changed = false;
    for item in items {
        let more = last_at(rules, cat, *item, table, from);
        changed = changed | more;
    }
    changed
}

/// Uses the rule of a category from a place.
fn rule_at(
    rules: &[Option<RuleLinks>],
    cat: usize,
    rule: &RuleLinks,
    table: &mut Table,
    from: usize,
) -> bool
    requires ready { Ready rules.now table.old }
    requires within { from < table.old.size }
    requires of { IsRule rules.now cat rule.now }
    ensures turn { Turn rules.now table.old table.new result }
    ensures met { result ≡ false → MeetsRule cat rule.now table.old from }
{
    let start = start_at(rules, Row::Read { cat, item: 0 }, table, from);
    let links = links_at(rules, cat, &rule.links, table, from);
    let lasts = lasts_at(rules, cat, &rule.lasts, table, from);
    (start | links) | lasts
}

/// Uses the rule of a category, if it has one.
fn category_at(rules: &[Option<RuleLinks>], cat: usize, table: &mut Table, from: usize) -> bool
    requires ready { Ready rules.now table.old }
    requires within { from < table.old.size }
    requires of { cat < length rules.now }
    ensures turn { Turn rules.now table.old table.new result }
    ensures met { result ≡ false → ((rule : RuleLinks) → IsRule rules.now cat rule → MeetsRule cat rule table.old from) }
{
    match &rules[cat] {
        Some(rule) => rule_at(rules, cat, rule, table, from),
        None => false,
    }
}

/// Uses all rules from a place.
fn line(rules: &[Option<RuleLinks>], table: &mut Table, from: usize) -> bool
    requires ready { Ready rules.now table.old }
    requires within { from < table.old.size }
    ensures turn { Turn rules.now table.old table.new result }
    ensures met { result ≡ false → MeetsRules rules.now (length rules.now) table.old from }
{
    let mut changed = false;
    for cat in 0..rules.len() {
        let more = category_at(rules, cat, table, from);
        changed = changed | more;
    }
    changed
}

/// Uses all rules from a place until nothing is new.
fn settle(rules: &[Option<RuleLinks>], table: &mut Table, from: usize) -> bool
    requires ready { Ready rules.now table.old }
    requires within { from < table.old.size }
    ensures turn { Turn rules.now table.old table.new result }
    ensures met { result ≡ false → MeetsRules rules.now (length rules.now) table.old from }
{
    let mut changed = false;
    loop {
        let more = line(rules, table, from);
        changed = changed | more;
        if !more {
            return changed;
        }
    }
}

/// Uses all rules from each place, from the last one down.
fn sweep(rules: &[Option<RuleLinks>], table: &mut Table) -> bool
    requires ready { Ready rules.now table.old }
    ensures turn { Turn rules.now table.old table.new result }
    ensures met { result ≡ false → MeetsAll rules.now table.old 0 }
{
    let mut changed = false;
    let mut from = table.size();
    while from > 0 {
        from -= 1;
        let more = settle(rules, table, from);
        changed = changed | more;
    }
    changed
}

/// Fills the table until nothing is new.
///
/// What a place gives depends on later places alone, so one sweep finds all and the next finds
/// nothing.
pub(crate) fn fill(rules: &[Option<RuleLinks>], table: &mut Table)
    requires { Ready rules.now table.old }
    ensures ready { Ready rules.now table.new }
    ensures size { table.new.size ≡ table.old.size }
    ensures rows { (row : Row) → IsRow table.old row → IsRow table.new row }
    ensures exact { (row : Row) (from to : ℕ) → Holds table.new row from to ↔ Filled rules.now table.old row from to }
{
    while sweep(rules, table) {}
}
