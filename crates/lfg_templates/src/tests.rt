use crate::expand;
use lfg_terms::{
    Arrow, Des, Draft, DraftRule, Form, LexEntry, List, Name, PathExpr, Rhs, Schema, Template, Val,
};
use std::alloc::Global;
use std::test::Fail;

/// The words of the text, as names.
fn names(alloc: Global, text: &str) -> Result<List<Name>, Fail> {
    let mut out = Vec::new(alloc);
    for word in text.split_whitespace() {
        out.push(Name::new(alloc, word)?)?;
    }
    Ok(List::new(alloc, out)?)
}

/// `(^ attribute)`.
fn up(alloc: Global, attribute: &str) -> Result<Des<PathExpr>, Fail> {
    Ok(Des {
        arrow: Arrow::Up,
        path: Some(PathExpr::Attr(Name::new(alloc, attribute)?)),
    })
}

/// `(^ attribute)=atom`.
fn equation(alloc: Global, attribute: &str, atom: &str) -> Result<Schema<PathExpr>, Fail> {
    let left = up(alloc, attribute)?;
    let right = Val::Atom(Name::new(alloc, atom)?);
    Ok(Schema::Define { left, right })
}

/// The calls of these templates, each with the arguments, or an equation where there are none.
fn body(alloc: Global, templates: &str, args: &str) -> Result<Vec<Schema<PathExpr>>, Fail> {
    let mut out = Vec::new(alloc);
    for template in templates.split_whitespace() {
        let name = Name::new(alloc, template)?;
        let args = names(alloc, args)?;
        out.push(Schema::Call { name, args })?;
    }
    if out.is_empty() {
        out.push(equation(alloc, "A", "b")?)?;
    }
    Ok(out)
}

/// Entries: their numbers, what heads them and what they call.
type Entries<'a> = &'a [(u32, &'a str, &'a str)];

fn rules(alloc: Global, entries: Entries<'_>) -> Result<List<DraftRule>, Fail> {
    let mut out = Vec::new(alloc);
    for (entry, head, calls) in entries {
        let schemata = Some(body(alloc, calls, "")?);
        let rhs = Rhs::Item {
            cat: Name::new(alloc, "A")?,
            schemata,
        };
        out.push(DraftRule {
            entry: *entry,
            cat: Name::new(alloc, head)?,
            rhs,
        })?;
    }
    Ok(List::new(alloc, out)?)
}

fn templates(alloc: Global, entries: Entries<'_>, params: &str) -> Result<Vec<Template>, Fail> {
    let mut out = Vec::new(alloc);
    for (entry, head, calls) in entries {
        out.push(Template {
            entry: *entry,
            name: Name::new(alloc, head)?,
            params: names(alloc, params)?,
            body: List::new(alloc, body(alloc, calls, "")?)?,
        })?;
    }
    Ok(out)
}

fn readings(alloc: Global, entries: Entries<'_>, args: &str) -> Result<List<LexEntry>, Fail> {
    let mut out = Vec::new(alloc);
    for (entry, head, calls) in entries {
        let schemata = List::new(alloc, body(alloc, calls, args)?)?;
        out.push(LexEntry {
            entry: *entry,
            form: Name::new(alloc, head)?,
            cat: Name::new(alloc, "S")?,
            schemata,
        })?;
    }
    Ok(List::new(alloc, out)?)
}

/// The fault, or the number of schemata of each reading.
fn answer(
    alloc: Global,
    rules: List<DraftRule>,
    templates: Vec<Template>,
    entries: List<LexEntry>,
) -> Result<String, Fail> {
    let draft = Draft {
        settings: List::new(alloc, Vec::new(alloc))?,
        rules,
        templates: List::new(alloc, templates)?,
        entries,
    };
    let plain = match expand(alloc, &draft) {
        Ok(plain) => plain,
        Err(fault) => return Ok(format!(in alloc; "{fault:?}")?),
    };
    let mut text = String::new(alloc);
    for entry in plain.entries.list() {
        let number = entry.schemata.list().len();
        text.push_str(format!(in alloc; "{number};")?.as_str())?;
    }
    Ok(text)
}

/// Twenty templates, of which each is two calls of the next, and the last an equation; and a
/// lexicon entry that calls one of them.
fn doubled(alloc: Global, first: &str) -> Result<String, Fail> {
    let mut all = Vec::new(alloc);
    for k in 1u32..20 {
        let next = k + 1;
        let head = format!(in alloc; "T{k}")?;
        let calls = format!(in alloc; "T{next} T{next}")?;
        let mut one = templates(alloc, &[(next, head.as_str(), calls.as_str())], "")?;
        all.append(&mut one)?;
    }
    let mut last = templates(alloc, &[(21, "T20", "")], "")?;
    all.append(&mut last)?;
    answer(
        alloc,
        rules(alloc, &[])?,
        all,
        readings(alloc, &[(22, "w", first)], "")?,
    )
}

#[test]
fn doubling_templates_are_too_much(rt: HostRuntime) -> Result<(), Fail> {
    let seen = doubled(rt.alloc(), "T1")?;
    assert_eq!(rt; seen.as_str(), "TooMuch { entry: 22 }");
    Ok(())
}

#[test]
fn as_many_schemata_as_are_allowed(rt: HostRuntime) -> Result<(), Fail> {
    let seen = doubled(rt.alloc(), "T2")?;
    assert_eq!(rt; seen.as_str(), "262144;");
    Ok(())
}

#[test]
fn calls_have_their_arity(rt: HostRuntime) -> Result<(), Fail> {
    let alloc = rt.alloc();
    let entries = readings(alloc, &[(3, "w", "T")], "x")?;
    let given = templates(alloc, &[(2, "T", "")], "")?;
    let seen = answer(alloc, rules(alloc, &[])?, given, entries)?;
    assert_eq!(rt; seen.as_str(), "Arity { name: \"T\" }");
    Ok(())
}

#[test]
fn parameters_stand_once(rt: HostRuntime) -> Result<(), Fail> {
    let alloc = rt.alloc();
    let given = templates(alloc, &[(2, "T", "")], "P Q P")?;
    let seen = answer(alloc, rules(alloc, &[])?, given, readings(alloc, &[], "")?)?;
    assert_eq!(rt; seen.as_str(), "Repeated { name: \"T\" }");
    Ok(())
}

/// The answer to rules, templates without parameters and readings.
fn fault(
    alloc: Global,
    heads: Entries<'_>,
    bodies: Entries<'_>,
    forms: Entries<'_>,
) -> Result<String, Fail> {
    let rules = rules(alloc, heads)?;
    let templates = templates(alloc, bodies, "")?;
    answer(alloc, rules, templates, readings(alloc, forms, "")?)
}

#[test]
fn templates_that_call_themselves(rt: HostRuntime) -> Result<(), Fail> {
    let alloc = rt.alloc();
    let seen = fault(alloc, &[], &[(2, "T", "T")], &[])?;
    assert_eq!(rt; seen.as_str(), "TemplateCycle { name: \"T\" }");
    let bodies = [(2, "T", "U"), (3, "U", "V"), (4, "V", "U")];
    let seen = fault(alloc, &[], &bodies, &[])?;
    assert_eq!(rt; seen.as_str(), "TemplateCycle { name: \"U\" }");
    Ok(())
}

#[test]
fn sections_interleave_by_entry(rt: HostRuntime) -> Result<(), Fail> {
    let alloc = rt.alloc();
    let seen = fault(alloc, &[(4, "S", "X")], &[(3, "T", "Y")], &[(2, "w", "Z")])?;
    assert_eq!(rt; seen.as_str(), "Undefined { name: \"Z\" }");
    Ok(())
}

#[test]
fn readings_of_one_entry_share_a_form(rt: HostRuntime) -> Result<(), Fail> {
    let alloc = rt.alloc();
    let heads = [(1, "S", "X"), (5, "S", "")];
    let seen = fault(
        alloc,
        &heads,
        &[],
        &[(2, "w", ""), (2, "w", ""), (6, "w", "")],
    )?;
    assert_eq!(rt; seen.as_str(), "Repeated { name: \"S\" }");
    let seen = fault(alloc, &[], &[], &[(2, "w", ""), (2, "w", "")])?;
    assert_eq!(rt; seen.as_str(), "1;1;");
    Ok(())
}

/// Schemata in which the two names stand in each place where a parameter can.
fn places(alloc: Global, p: &str, q: &str) -> Result<List<Schema<PathExpr>>, Fail> {
    let name = Name::new(alloc, p)?;
    let inner = names(alloc, q)?;
    let outer = names(alloc, p)?;
    let left = up(alloc, q)?;
    let right = Val::Form(Form { name, inner, outer });
    let mut out = Vec::new(alloc);
    out.push(Schema::Define { left, right })?;
    out.push(Schema::Mark(Name::new(alloc, p)?))?;
    let atom = equation(alloc, p, q)?;
    out.push(Schema::Maybe(vec![in alloc; atom]?))?;
    Ok(List::new(alloc, out)?)
}

#[test]
fn arguments_stand_in_place_of_parameters(rt: HostRuntime) -> Result<(), Fail> {
    let alloc = rt.alloc();
    let mut given = templates(alloc, &[(2, "T", "U")], "P Q")?;
    let args = names(alloc, "Q P")?;
    let name = Name::new(alloc, "U")?;
    let call = vec![in alloc; Schema::Call { name, args }]?;
    if let Some(template) = given.first_mut() {
        template.body = List::new(alloc, call)?;
    }
    given.push(Template {
        entry: 3,
        name: Name::new(alloc, "U")?,
        params: names(alloc, "P Q")?,
        body: places(alloc, "P", "Q")?,
    })?;
    let draft = Draft {
        settings: List::new(alloc, Vec::new(alloc))?,
        rules: rules(alloc, &[])?,
        templates: List::new(alloc, given)?,
        entries: readings(alloc, &[(4, "w", "T")], "a b")?,
    };
    let mut seen = String::new(alloc);
    if let Ok(plain) = expand(alloc, &draft) {
        for entry in plain.entries.list() {
            seen = format!(in alloc; "{:?}", entry.schemata)?;
        }
    }
    let places = places(alloc, "b", "a")?;
    let wanted = format!(in alloc; "{places:?}")?;
    assert_eq!(rt; seen.as_str(), wanted.as_str());
    Ok(())
}

/// A rule and a reading, each inside this many brackets.
fn nested(alloc: Global, depth: u32) -> Result<String, Fail> {
    let mut rhs = Rhs::Row(Vec::new(alloc));
    let mut schema = equation(alloc, "A", "b")?;
    for _ in 0..depth {
        rhs = Rhs::Row(vec![in alloc; rhs]?);
        schema = Schema::Maybe(vec![in alloc; schema]?);
    }
    let cat = Name::new(alloc, "S")?;
    let rule = DraftRule { entry: 1, cat, rhs };
    let schemata = List::new(alloc, vec![in alloc; schema]?)?;
    let form = Name::new(alloc, "w")?;
    let cat = Name::new(alloc, "S")?;
    let entry = LexEntry {
        entry: 2,
        form,
        cat,
        schemata,
    };
    let rules = List::new(alloc, vec![in alloc; rule]?)?;
    let entries = List::new(alloc, vec![in alloc; entry]?)?;
    answer(alloc, rules, Vec::new(alloc), entries)
}

#[test]
fn deep_nesting_returns(rt: HostRuntime) -> Result<(), Fail> {
    let seen = nested(rt.alloc(), 1000)?;
    assert_eq!(rt; seen.as_str(), "1;");
    Ok(())
}
