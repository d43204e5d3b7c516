//! A report as lines of JSON, for programs.
use crate::report::Report;
use crate::told::{FaultyLine, Step};
use serde_json::{Value as Json, json};
use std::alloc::{AllocError, Global};

fn text_json(alloc: Global, text: Option<&str>) -> Result<Json, AllocError> {
    match text {
        Some(text) => Json::try_from_str(alloc, text),
        None => Ok(Json::Null),
    }
}

fn number_json(number: Option<u64>) -> Json {
    match number {
        Some(number) => Json::from(number),
        None => Json::Null,
    }
}

fn path_json(alloc: Global, path: &[Step]) -> Result<Json, AllocError> {
    let mut steps = Vec::new(alloc);
    for step in path {
        let json = match step {
            Step::At(at) => Json::from(*at as u64),
            Step::Of(name) | Step::Name(name) => Json::try_from_str(alloc, name.as_str())?,
        };
        steps.push(json)?;
    }
    Ok(Json::Array(steps))
}

fn line_of(alloc: Global, json: &Json) -> Result<String, AllocError> {
    let mut line = json.to_string(alloc)?;
    line.push_str("\n")?;
    Ok(line)
}

// The line that it may be meant as.
fn fix_of(told: &FaultyLine) -> Option<&str> {
    match &told.fix {
        Some(meant) => Some(meant.line.as_str()),
        None => None,
    }
}

/// The object of a line with a fault, in the file of this name.
pub fn told_json(alloc: Global, file: &str, told: &FaultyLine) -> Result<String, AllocError> {
    let fault = told.fault.to_string(alloc)?;
    let found = told.found.to_string(alloc)?;
    let expected = told.expected.to_string(alloc)?;
    let page = told.expected.page().to_string(alloc)?;
    let length = told.mark.end.saturating_sub(told.mark.start) as u64;
    let path = path_json(alloc, told.path.as_slice())?;
    let nearest = text_json(alloc, told.nearest)?;
    let fix = text_json(alloc, fix_of(told))?;
    let json = json!(in alloc; {
        "file": file,
        "line": told.line,
        "column": told.column as u64,
        "length": length,
        "path": path,
        "fault": fault.as_str(),
        "found": found.as_str(),
        "expected": expected.as_str(),
        "nearest": nearest,
        "fix": fix,
        "page": page.as_str()
    })?;
    line_of(alloc, &json)
}

/// The object that a report on the file of this name ends with.
pub fn summary_json(alloc: Global, file: &str, report: &Report) -> Result<String, AllocError> {
    let kind = report.kind.to_string(alloc)?;
    let counts = report.counts;
    let refused = number_json(report.least.as_ref().map(|told| told.line));
    let network = number_json(report.network.map(|least| least.number));
    let json = json!(in alloc; {
        "file": file,
        "kind": kind.as_str(),
        "lines": report.lines,
        "faults": report.faults,
        "refused": refused,
        "net_refuses": network,
        "servers": u64::from(counts.servers),
        "sessions": counts.sessions,
        "writes": counts.writes,
        "reads": counts.reads,
        "pulls": counts.pulls,
        "entries": counts.entries,
        "held": counts.held
    })?;
    line_of(alloc, &json)
}
