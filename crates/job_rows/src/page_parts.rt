//! The fixed parts of the document: its style, the filter and what stands round the rows.
//!
//! How many jobs pass is counted by the style, from row to row, so that no number has to be kept;
//! the foot, which is written last, has the counts, and the style puts it above the rows. A row
//! that the filter hides is not counted; the foot says then how many rows are left, so that paper
//! tells it, too. Nothing is loaded: the policy in the head forbids it.

/// Up to the names of the printers.
pub(crate) const HEAD: &str = "<!DOCTYPE html>
<html lang=\"en\">
<head>
<meta charset=\"utf-8\">
<meta name=\"viewport\" content=\"width=device-width\">
<meta http-equiv=\"Content-Security-Policy\" content=\"default-src 'none'; img-src data:; style-src 'unsafe-inline'; script-src 'unsafe-inline'\">
<title>Print jobs, checked</title>
<style>
:root { color-scheme: light dark; --back: #fff; --text: #1b1b1b; --dim: #5f5f5f; --line: #d0d0d0;
  --shade: #f5f5f5; --pass: #17692f; --fail: #b0201a; --error: #7a5200; }
@media screen and (prefers-color-scheme: dark) {
  :root { --back: #161616; --text: #e6e6e6; --dim: #a5a5a5; --line: #404040; --shade: #222;
    --pass: #6fd08c; --fail: #ff8b80; --error: #e8b95a; }
}
body { display: flex; flex-direction: column; margin: 0 auto; padding: 1em; max-width: 72em;
  background: var(--back); color: var(--text); font: 1em/1.45 sans-serif; counter-reset: pass fail error; }
header { order: 1; }
footer { order: 2; }
form { order: 3; }
main { order: 4; border-top: 1px solid var(--line); }
h1 { margin: 0; font-size: 1.3em; }
header ul { display: flex; flex-wrap: wrap; align-items: baseline; gap: 0 .5em; margin: 0;
  padding: 0; list-style: none; }
header ul::before { content: 'Printers:'; color: var(--dim); }
header li { font-family: monospace; }
footer { margin: .7em 0; font-size: 1.15em; }
footer span { margin-right: 1em; white-space: nowrap; }
footer .pass::before { content: counter(pass) ' '; font-weight: bold; }
footer .fail::before { content: counter(fail) ' '; font-weight: bold; }
footer .error::before { content: counter(error) ' '; font-weight: bold; }
form:not([hidden]) { display: flex; flex-wrap: wrap; gap: .4em 1em; margin-bottom: .7em; }
details.pass { counter-increment: pass; }
details.fail { counter-increment: fail; }
details.error { counter-increment: error; }
details { border-bottom: 1px solid var(--line); }
summary { padding: .35em 0 .35em 5.7em; text-indent: -5.7em; overflow-wrap: anywhere;
  cursor: pointer; }
details[open] > summary { background: var(--shade); }
summary b { display: inline-block; min-width: 4.3em; text-indent: 0; }
summary i { margin-left: .3em; padding: 0 .4em; border: 1px solid var(--line); border-radius: .6em;
  color: var(--dim); font-style: normal; font-size: .85em; white-space: nowrap; }
.pass > summary b, footer .pass { color: var(--pass); }
.fail > summary b, footer .fail { color: var(--fail); }
.error > summary b, footer .error { color: var(--error); }
details > :not(summary) { margin: .5rem 0 .8rem 1.1rem; }
details > p { overflow-wrap: anywhere; }
pre { overflow-x: auto; padding: .5em; background: var(--shade); font-size: .9em; }
figcaption { color: var(--dim); }
img { display: block; box-sizing: border-box; max-width: 100%; height: auto; max-height: 90vh;
  margin-top: .3em; border: 1px solid var(--line); background: #fff; }
@media (max-width: 40em) {
  summary { padding-left: 1.1em; text-indent: -1.1em; }
  summary b { min-width: 0; }
  details > :not(summary) { margin-left: 0; }
  pre { white-space: pre-line; font-size: .72em; }
}
@media print {
  body { max-width: none; padding: 0; font-size: 9pt; }
  form, form:not([hidden]) { display: none; }
  summary { padding-left: 4.6em; text-indent: -4.6em; list-style: none; break-inside: avoid; }
  summary b { min-width: 4.3em; }
  details[open] > summary { break-after: avoid; }
  pre { white-space: pre-wrap; overflow-wrap: anywhere; }
  figure { break-inside: avoid; }
  img { max-height: 55vh; }
}
</style>
</head>
<body>
<header>
<h1>Print jobs, checked by pclcheck</h1>
<ul aria-label=\"The printers\">
";

/// Between the names of the printers and the rows.
pub(crate) const ROWS_START: &str = "</ul>
</header>
<form hidden>
<label><input type=\"checkbox\" name=\"fail\" checked> FAIL</label>
<label><input type=\"checkbox\" name=\"error\" checked> ERROR</label>
<label><input type=\"checkbox\" name=\"pass\" checked> PASS</label>
<label>Printer <select name=\"printer\"><option value=\"\">any</option></select></label>
<label>Words <input type=\"search\" name=\"words\"></label>
</form>
<main>
";

/// Behind the rows.
pub(crate) const FOOT: &str = "</main>
<footer>
<span class=\"pass\">passed</span>
<span class=\"fail\">failed</span>
<span class=\"error\">without a verdict</span>
<output hidden></output>
</footer>
<script>
const form = document.forms[0];
const rows = [...document.querySelectorAll('details')];
const told = document.querySelector('output');
for (const name of new Set(rows.map(row => row.dataset.printer)))
  if (name) form.printer.add(new Option(name));
form.oninput = () => {
  const printer = form.printer.value;
  const words = form.words.value.toLowerCase().split(/\\s+/);
  for (const row of rows) {
    const text = row.firstElementChild.textContent.toLowerCase();
    const about = row.dataset.printer;
    row.hidden = !(form[row.className].checked
      && (printer === '' || about === '' || about === printer)
      && words.every(word => text.includes(word)));
  }
  const left = rows.filter(row => !row.hidden).length;
  told.value = left + ' of ' + rows.length + ' rows; the others are left out';
  told.hidden = left === rows.length;
};
form.onsubmit = () => false;
form.reset();
form.hidden = false;
</script>
</body>
</html>
";
