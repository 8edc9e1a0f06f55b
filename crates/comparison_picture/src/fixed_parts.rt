//! The fixed parts of pictures and of documents: their style, and what stands round their pages.
//!
//! A group of marks has the color of its job, and its marks take it in place of black; a rectangle
//! that is white covers what its job has below it, and has an outline, since it would not be seen,
//! and the lines of one that is hatched get the color by a filter. Each mark has a halo, which is
//! as wide at each size at which a page is looked at, so that the eye finds a mark that is moved by
//! a dot; that of a row is narrow, since rows lie close. Where marks of both jobs lie one upon the
//! other it is dark. Nothing is loaded: the policy in the head of a document forbids it.

ghost use Rattle.std.specs.Prelude.{◌≡◌, ◌++◌, OnOk};
ghost use Rattle.comparison_picture.specs.FixedParts.{
  body_text,
  filters_text,
  head_text,
  legend_text,
  list_head,
  style_text,
};

use std::alloc::{AllocError, Allocator};

/// How the marks of OLD and of NEW look, and their lists.
pub(crate) const STYLE: &str = ".old { color: #d40000; }
.new { color: #00802b; }
.old, .new, .differs .area:not([fill^=\"url\"]) { fill: currentColor; }
.differs { mix-blend-mode: multiply; }
.differs text, .differs path, .differs .area { stroke: currentColor; stroke-opacity: .2;
  stroke-width: 6px; stroke-linejoin: round; vector-effect: non-scaling-stroke; }
.differs path { stroke-width: 1px; }
.differs .area[fill=\"white\"] { fill: white; stroke-opacity: 1; stroke-width: 2px; }
.differs .line, .differs .box { stroke: currentColor; }
.old .area[fill^=\"url\"] { filter: url(#old); }
.new .area[fill^=\"url\"] { filter: url(#new); }
.sentence { fill: #333; }
";

/// By which the lines of a hatched rectangle get the color of its job.
pub(crate) const FILTERS: &str = "<defs>
<filter id=\"old\"><feFlood flood-color=\"#d40000\"/><feComposite in2=\"SourceAlpha\" operator=\"in\"/></filter>
<filter id=\"new\"><feFlood flood-color=\"#00802b\"/><feComposite in2=\"SourceAlpha\" operator=\"in\"/></filter>
</defs>
";

/// Of a document up to the style of marks.
pub(crate) const HEAD: &str = "<!DOCTYPE html>
<html lang=\"en\">
<head>
<meta charset=\"utf-8\">
<meta name=\"viewport\" content=\"width=device-width\">
<meta http-equiv=\"Content-Security-Policy\" content=\"default-src 'none'; style-src 'unsafe-inline'\">
<title>What differs between two print jobs</title>
<style>
:root { color-scheme: light dark; --back: #fff; --text: #1b1b1b; --line: #d0d0d0; }
@media screen and (prefers-color-scheme: dark) {
  :root { --back: #161616; --text: #e6e6e6; --line: #404040; }
}
";

/// Between that and the filters.
pub(crate) const BODY: &str =
    "body { margin: 0 auto; padding: 1em; max-width: 90em; background: var(--back);
  color: var(--text); font: 1em/1.45 sans-serif; }
body > svg { position: absolute; }
h2 { margin: 1.5em 0 .5em; font-size: 1.1em; break-after: avoid; }
section > div { display: flex; flex-wrap: wrap; align-items: flex-start; gap: 1em 2em; }
section svg { max-width: 100%; max-height: 94vh; height: auto; isolation: isolate; }
table { border-collapse: collapse; font-size: .85em; }
th, td { padding: .1em .8em .1em 0; border-bottom: 1px solid var(--line); text-align: left; }
th:nth-child(n+2), td:nth-child(n+2) { text-align: right; }
@media screen and (prefers-color-scheme: dark) {
  p .old, table .old { color: #ff8b80; }
  p .new, table .new { color: #6fd08c; }
}
@media print {
  body { max-width: none; padding: 0; font-size: 9pt; }
  section svg { max-height: 70vh; }
  section + section { break-before: page; }
}
</style>
</head>
<body>
<svg width=\"0\" height=\"0\" aria-hidden=\"true\">
";

/// Between the sentence on both jobs and the pages: what stands for what.
pub(crate) const LEGEND: &str = "</p>
<p>Gray: what both jobs have. <span class=\"old\">Red: what OLD has alone.</span> <span class=\"new\">Green: what NEW has alone.</span>
Where both lie one upon the other it is dark. A white rectangle is an outline. Point at a mark to read what it is,
the byte of its item, and its place from the left and the upper edge.</p>
";

/// Before the rows of the list of a page.
pub(crate) const LIST_START: &str = "<table>
<thead><tr><th>what</th><th class=\"old\">mark of OLD</th><th class=\"old\">byte</th><th class=\"new\">mark of NEW</th><th class=\"new\">byte</th></tr></thead>
<tbody>
";

/// Appends how marks look.
#[tactic(auto, unfolding(crate::specs::FixedParts::style_text))]
pub(crate) fn push_style<A: Allocator>(text: &mut Vec<u8, A>) -> Result<(), AllocError>
    ensures { OnOk result (text.new.items ≡ text.old.items ++ style_text) }
{
    text.extend_from_slice(STYLE.as_bytes())
}

/// Appends the filters of hatched rectangles.
#[tactic(auto, unfolding(crate::specs::FixedParts::filters_text))]
pub(crate) fn push_filters<A: Allocator>(text: &mut Vec<u8, A>) -> Result<(), AllocError>
    ensures { OnOk result (text.new.items ≡ text.old.items ++ filters_text) }
{
    text.extend_from_slice(FILTERS.as_bytes())
}

/// Appends what a document has before the style of marks.
#[tactic(auto, unfolding(crate::specs::FixedParts::head_text))]
pub(crate) fn push_head_part<A: Allocator>(text: &mut Vec<u8, A>) -> Result<(), AllocError>
    ensures { OnOk result (text.new.items ≡ text.old.items ++ head_text) }
{
    text.extend_from_slice(HEAD.as_bytes())
}

/// Appends what it has between that and the filters.
#[tactic(auto, unfolding(crate::specs::FixedParts::body_text))]
pub(crate) fn push_body_part<A: Allocator>(text: &mut Vec<u8, A>) -> Result<(), AllocError>
    ensures { OnOk result (text.new.items ≡ text.old.items ++ body_text) }
{
    text.extend_from_slice(BODY.as_bytes())
}

/// Appends what stands for what.
#[tactic(auto, unfolding(crate::specs::FixedParts::legend_text))]
pub(crate) fn push_legend<A: Allocator>(text: &mut Vec<u8, A>) -> Result<(), AllocError>
    ensures { OnOk result (text.new.items ≡ text.old.items ++ legend_text) }
{
    text.extend_from_slice(LEGEND.as_bytes())
}

/// Appends what stands before the rows of a list.
#[tactic(auto, unfolding(crate::specs::FixedParts::list_head))]
pub(crate) fn push_list_head<A: Allocator>(text: &mut Vec<u8, A>) -> Result<(), AllocError>
    ensures { OnOk result (text.new.items ≡ text.old.items ++ list_head) }
{
    text.extend_from_slice(LIST_START.as_bytes())
}
