//! Drawn scripts.
use crate::checks::filled;
use calvin_script::AppName;
use rand_core::utils::NextWord;
use rand_pcg::Pcg32;
use std::alloc::{AllocError, Global};

/// A number below `below`, which isn't 0.
pub fn draw(generator: &mut Pcg32, below: u32) -> u32 {
    generator.next_word().checked_rem(below).unwrap_or(0)
}

/// A number of one to twenty digits.
fn number(generator: &mut Pcg32) -> u64 {
    let edges = [
        0,
        9,
        4095,
        4294967295,
        9999999999999999999,
        18446744073709551615,
    ];
    match edges.get(draw(generator, 20) as usize) {
        Some(&edge) => edge,
        None => draw(generator, 4096) as u64,
    }
}

/// Adds the texts with commas between, in a drawn order.
fn add_joined(all: &mut String, generator: &mut Pcg32, texts: &[String]) -> Result<(), AllocError> {
    let first = draw(generator, 8) as usize;
    for i in 0..texts.len() {
        if 0 < i {
            all.push_str(",")?;
        }
        let turned = i.wrapping_add(first).checked_rem(texts.len()).unwrap_or(0);
        match texts.get(turned) {
            Some(text) => all.push_str(text.as_str())?,
            None => {}
        }
    }
    Ok(())
}

/// The texts with commas between, in a drawn order, where adding them went well.
fn joined(
    generator: &mut Pcg32,
    alloc: Global,
    texts: Vec<String>,
    outcome: Result<(), AllocError>,
) -> Result<String, AllocError> {
    let texts = filled(texts, outcome)?;
    let mut all = String::new(alloc);
    let added = add_joined(&mut all, generator, texts.as_slice());
    drop(texts);
    filled(all, added)
}

/// Adds a text, where it could be written.
fn add(texts: &mut Vec<String>, text: Result<String, AllocError>) -> Result<(), AllocError> {
    texts.push(text?)?;
    Ok(())
}

/// An object with these members.
fn object(alloc: Global, members: String) -> Result<String, AllocError> {
    let object = format!(in alloc; "{{{members}}}");
    drop(members);
    object
}

/// Adds keys that differ, each after one text and before another.
fn add_keys(
    all: &mut Vec<String>,
    generator: &mut Pcg32,
    alloc: Global,
    before: &str,
    after: &str,
) -> Result<(), AllocError> {
    let mut key = draw(generator, 100);
    for _ in 0..draw(generator, 5) {
        key = key.wrapping_add(draw(generator, 50)).wrapping_add(1);
        add(all, format!(in alloc; "{before}{key}{after}"))?;
    }
    Ok(())
}

/// Keys that differ, each after one text and before another.
fn keys(
    generator: &mut Pcg32,
    alloc: Global,
    before: &str,
    after: &str,
) -> Result<String, AllocError> {
    let mut all = Vec::new(alloc);
    let added = add_keys(&mut all, generator, alloc, before, after);
    joined(generator, alloc, all, added)
}

/// A get of drawn rows.
fn get(generator: &mut Pcg32, alloc: Global) -> Result<String, AllocError> {
    let keys = keys(generator, alloc, "", "")?;
    let get = format!(in alloc; r#""op":["get",[{keys}]]"#);
    drop(keys);
    get
}

fn kv_operation(generator: &mut Pcg32, alloc: Global) -> Result<String, AllocError> {
    let (first, second) = (number(generator), number(generator));
    match draw(generator, 3) {
        0 => format!(in alloc; r#""op":["put",{first},{second}]"#),
        1 => format!(in alloc; r#""op":["add",{first},{second}]"#),
        _ => get(generator, alloc),
    }
}

/// Adds one to four lines of distinct items.
fn add_lines(
    lines: &mut Vec<String>,
    generator: &mut Pcg32,
    alloc: Global,
) -> Result<(), AllocError> {
    let mut item = draw(generator, 100);
    for _ in 0..draw(generator, 4).wrapping_add(1) {
        item = item.wrapping_add(draw(generator, 50)).wrapping_add(1);
        let pieces = draw(generator, 1_000_000_000).wrapping_add(1);
        add(lines, format!(in alloc; "[{item},{pieces}]"))?;
    }
    Ok(())
}

/// An order of one to four lines of distinct items.
fn order(generator: &mut Pcg32, alloc: Global) -> Result<String, AllocError> {
    let (customer, own_number) = (number(generator), number(generator));
    let mut lines = Vec::new(alloc);
    let added = add_lines(&mut lines, generator, alloc);
    let lines = joined(generator, alloc, lines, added)?;
    let order = format!(in alloc; r#""op":["order",{customer},{own_number},[{lines}]]"#);
    drop(lines);
    order
}

fn stock_operation(generator: &mut Pcg32, alloc: Global) -> Result<String, AllocError> {
    let (first, second, third) = (number(generator), number(generator), number(generator));
    match draw(generator, 8) {
        0 => format!(in alloc; r#""op":["additem",{first},{second},{third}]"#),
        1 => format!(in alloc; r#""op":["restock",{first},{second}]"#),
        2 => format!(in alloc; r#""op":["open",{first}]"#),
        3 => format!(in alloc; r#""op":["payin",{first},{second}]"#),
        4 => format!(in alloc; r#""op":["settle",{first}]"#),
        5 => format!(in alloc; r#""op":["balance",{first}]"#),
        _ => order(generator, alloc),
    }
}

fn operation(generator: &mut Pcg32, alloc: Global, app: AppName) -> Result<String, AllocError> {
    match app {
        AppName::Kv => kv_operation(generator, alloc),
        AppName::Stock | AppName::Once => stock_operation(generator, alloc),
    }
}

/// Adds who asks, what is asked, and at times the attempt.
fn add_asked(
    members: &mut Vec<String>,
    generator: &mut Pcg32,
    alloc: Global,
    app: AppName,
) -> Result<(), AllocError> {
    let (client, number) = (draw(generator, 1000), draw(generator, 1000));
    add(members, format!(in alloc; r#""client":{client}"#))?;
    add(members, format!(in alloc; r#""number":{number}"#))?;
    add(members, operation(generator, alloc, app))?;
    if draw(generator, 2) == 0 {
        let attempt = draw(generator, 8).wrapping_add(1);
        add(members, format!(in alloc; r#""attempt":{attempt}"#))?;
    }
    Ok(())
}

/// Adds declared sets, of which that of the writes has a key.
fn add_sets(
    members: &mut Vec<String>,
    generator: &mut Pcg32,
    alloc: Global,
) -> Result<(), AllocError> {
    let reads = keys(generator, alloc, "[0,", "]")?;
    let member = format!(in alloc; r#""reads":[{reads}]"#);
    drop(reads);
    add(members, member)?;
    let writes = keys(generator, alloc, "[3,", "]")?;
    let comma = if writes.is_empty() { "" } else { "," };
    let member = format!(in alloc; r#""writes":[{writes}{comma}[7,1]]"#);
    drop(writes);
    add(members, member)
}

/// Adds the members of a request.
fn add_members(
    members: &mut Vec<String>,
    generator: &mut Pcg32,
    alloc: Global,
    app: AppName,
) -> Result<(), AllocError> {
    add_asked(members, generator, alloc, app)?;
    add_sets(members, generator, alloc)
}

/// A request with its members in a drawn order. Its declared sets have a key.
fn request(generator: &mut Pcg32, alloc: Global, app: AppName) -> Result<String, AllocError> {
    let mut members = Vec::new(alloc);
    let added = add_members(&mut members, generator, alloc, app);
    object(alloc, joined(generator, alloc, members, added)?)
}

/// Adds a few requests.
fn add_requests(
    requests: &mut Vec<String>,
    generator: &mut Pcg32,
    alloc: Global,
    app: AppName,
) -> Result<(), AllocError> {
    for _ in 0..draw(generator, 4) {
        add(requests, request(generator, alloc, app))?;
    }
    Ok(())
}

/// Adds the members of a batch of these requests.
fn add_batch_members(
    members: &mut Vec<String>,
    alloc: Global,
    group: u32,
    requests: &str,
) -> Result<(), AllocError> {
    add(members, format!(in alloc; r#""group":{group}"#))?;
    add(members, format!(in alloc; r#""txns":[{requests}]"#))
}

/// A batch of a few requests, with its members in a drawn order.
fn batch(
    generator: &mut Pcg32,
    alloc: Global,
    app: AppName,
    group: u32,
) -> Result<String, AllocError> {
    let mut requests = Vec::new(alloc);
    let added = add_requests(&mut requests, generator, alloc, app);
    let requests = joined(generator, alloc, requests, added)?;
    let mut members = Vec::new(alloc);
    let added = add_batch_members(&mut members, alloc, group, requests.as_str());
    drop(requests);
    object(alloc, joined(generator, alloc, members, added)?)
}

/// Adds a few batches of the groups 0 and 1.
fn add_batches(
    batches: &mut Vec<String>,
    generator: &mut Pcg32,
    alloc: Global,
    app: AppName,
) -> Result<(), AllocError> {
    for group in 0..draw(generator, 3) {
        add(batches, batch(generator, alloc, app, group))?;
    }
    Ok(())
}

/// A few batches of the groups 0 and 1.
fn epoch(generator: &mut Pcg32, alloc: Global, app: AppName) -> Result<String, AllocError> {
    let mut batches = Vec::new(alloc);
    let added = add_batches(&mut batches, generator, alloc, app);
    let batches = joined(generator, alloc, batches, added)?;
    let epoch = format!(in alloc; "[{batches}]");
    drop(batches);
    epoch
}

/// Adds a few epochs.
fn add_epochs(
    epochs: &mut Vec<String>,
    generator: &mut Pcg32,
    alloc: Global,
    app: AppName,
) -> Result<(), AllocError> {
    for _ in 0..draw(generator, 3) {
        add(epochs, epoch(generator, alloc, app))?;
    }
    Ok(())
}

/// A few epochs.
fn epochs(generator: &mut Pcg32, alloc: Global, app: AppName) -> Result<String, AllocError> {
    let mut epochs = Vec::new(alloc);
    let added = add_epochs(&mut epochs, generator, alloc, app);
    joined(generator, alloc, epochs, added)
}

/// A number of an epoch.
fn epoch_number(generator: &mut Pcg32) -> u64 {
    let edges = [0, 1, 4294967296, 281474976710655];
    match edges.get(draw(generator, 8) as usize) {
        Some(&edge) => edge,
        None => draw(generator, 1000) as u64,
    }
}

/// Adds the members of a script of these epochs, at times the first woven epoch.
fn add_script_members(
    members: &mut Vec<String>,
    generator: &mut Pcg32,
    alloc: Global,
    app: AppName,
    epochs: &str,
) -> Result<(), AllocError> {
    add(members, format!(in alloc; r#""partitions":2"#))?;
    let name = match app {
        AppName::Kv => "kv",
        AppName::Stock => "stock",
        AppName::Once => "once",
    };
    add(members, format!(in alloc; r#""app":"{name}""#))?;
    if draw(generator, 2) == 0 {
        let first = epoch_number(generator);
        add(members, format!(in alloc; r#""woven_from":{first}"#))?;
    }
    add(members, format!(in alloc; r#""epochs":[{epochs}]"#))
}

/// A script of a few batches of the groups 0 and 1 for an application, with its members in a drawn order.
pub fn script(generator: &mut Pcg32, alloc: Global, app: AppName) -> Result<String, AllocError> {
    let epochs = epochs(generator, alloc, app)?;
    let mut members = Vec::new(alloc);
    let added = add_script_members(&mut members, generator, alloc, app, epochs.as_str());
    drop(epochs);
    object(alloc, joined(generator, alloc, members, added)?)
}
