//! What `.ci/web-page` made of data/page.html: don't edit it.

/// The page.
pub const PAGE: &str = r#"<!doctype html>
<html lang="en">
<head>
<meta charset="utf-8">
<title>Bayou</title>
<meta name="viewport" content="width=device-width, initial-scale=1">
<style>
:root {
  color-scheme: light dark;
  --ground: #f4f6f8; --paper: #ffffff; --ink: #1b2330; --soft: #566173; --line: #cfd5dd; --head: #eaeef3; --link: #1f5fbf;
  --final: #d9efe0; --hatch: #ffe9c4; --plain: #fff8ec; --bad: #a3201a; --good: #1f7a43; --bar: #fff1d6;
}
@media (prefers-color-scheme: dark) {
  :root {
    --ground: #12161c; --paper: #1a2029; --ink: #e6eaf0; --soft: #a4afbe; --line: #3a4452; --head: #242c37; --link: #8ab8ff;
    --final: #1d4630; --hatch: #4f3b12; --plain: #382c14; --bad: #ff9a92; --good: #7fd6a0; --bar: #4a3810;
  }
}
* { box-sizing: border-box; }
body { margin: 0; font: 15px/1.45 system-ui, sans-serif; color: var(--ink); background: var(--ground); }
header { display: flex; flex-wrap: wrap; gap: 6px 18px; align-items: baseline; padding: 10px 18px; background: var(--paper); border-bottom: 1px solid var(--line); }
h1 { font-size: 19px; margin: 0; }
h2 { font-size: 15px; margin: 0 0 6px; }
header p { margin: 0; color: var(--soft); }
#state { margin-left: auto; }
#bar { margin: 0; padding: 8px 18px; background: var(--bar); border-bottom: 1px solid var(--line); }
#bar:empty { display: none; }
main { display: grid; grid-template-columns: minmax(0, 1fr) 340px; gap: 18px; padding: 18px; max-width: 1240px; margin: auto; align-items: start; }
section { background: var(--paper); border: 1px solid var(--line); border-radius: 8px; padding: 12px 14px; margin: 0 0 14px; min-width: 0; }
nav { display: flex; flex-wrap: wrap; gap: 6px; margin: 0 0 10px; }
button { font: inherit; color: var(--ink); background: var(--head); border: 1px solid var(--line); border-radius: 6px; padding: 4px 12px; cursor: pointer; min-height: 32px; }
button:hover:not(:disabled) { border-color: var(--link); }
button:disabled { cursor: default; color: var(--soft); }
button:focus-visible, input:focus-visible, .wide:focus-visible, pre:focus-visible { outline: 3px solid var(--link); outline-offset: 1px; }
nav button[aria-pressed=true] { background: var(--ink); color: var(--paper); border-color: var(--ink); }
.wide { overflow-x: auto; }
table { border-collapse: collapse; width: 100%; }
caption { text-align: left; color: var(--soft); padding: 0 0 6px; }
th, td { border: 1px solid var(--line); padding: 5px 8px; text-align: left; vertical-align: top; overflow-wrap: anywhere; }
thead th, tbody th { background: var(--head); font-weight: 600; }
#grid td { min-width: 96px; }
.table th { overflow-wrap: normal; white-space: nowrap; }
td.final { background: var(--final); }
td.tentative { background: repeating-linear-gradient(45deg, var(--plain) 0 7px, var(--hatch) 7px 14px); }
td small { display: block; color: var(--ink); opacity: .85; }
td button { display: block; margin-top: 3px; padding: 1px 8px; min-height: 28px; font-size: 13px; white-space: nowrap; }
td.free button { width: 100%; margin: 0; padding: 1px 0; text-align: left; background: transparent; border-color: transparent; color: var(--soft); }
td.free button:hover:not(:disabled), td.free button:focus-visible { background: var(--head); color: var(--ink); }
.legend { color: var(--soft); font-size: 13px; margin: 8px 0 0; }
.legend span { display: inline-block; width: 18px; height: 14px; vertical-align: -2px; border: 1px solid var(--line); margin: 0 5px 0 14px; }
.legend span:first-child { margin-left: 0; }
.sample-final { background: var(--final); }
.sample-tentative { background: repeating-linear-gradient(45deg, var(--plain) 0 5px, var(--hatch) 5px 10px); }
form { display: flex; flex-wrap: wrap; gap: 6px; align-items: center; margin: 0 0 8px; }
label { font-weight: 600; }
input::placeholder { color: var(--soft); }
input { flex: 1 1 12em; min-width: 0; font: 14px ui-monospace, monospace; color: var(--ink); background: var(--paper); border: 1px solid var(--line); border-radius: 6px; padding: 5px 8px; min-height: 32px; }
pre { margin: 0; font: 13px/1.5 ui-monospace, monospace; white-space: pre-wrap; overflow-wrap: anywhere; max-height: 220px; overflow: auto; }
ul { margin: 0; padding: 0; list-style: none; }
li { padding: 4px 0; border-top: 1px solid var(--line); overflow-wrap: anywhere; }
li:first-child { border-top: 0; }
li small, .soft { color: var(--soft); }
.up { color: var(--good); } .away { color: var(--bad); }
dl { display: grid; grid-template-columns: auto 1fr; gap: 2px 12px; margin: 0; } dt { color: var(--soft); } dd { margin: 0; overflow-wrap: anywhere; }
@media (max-width: 860px) { main { grid-template-columns: minmax(0, 1fr); padding: 10px; gap: 0; } header, #bar { padding: 8px 12px; } #state { margin-left: 0; } }
</style>
</head>
<body>
<header><h1>Bayou</h1><p id="who"></p><p id="state" role="status">not asked yet</p></header>
<p id="bar" role="alert"></p>
<main>
<div>
<section aria-labelledby="rows-name">
<h2 id="rows-name">What the store has</h2>
<form id="filter"><label for="prefix">Keys that begin with</label><input id="prefix" autocomplete="off" autocapitalize="none" spellcheck="false" maxlength="32"></form>
<nav id="tabs" aria-label="Tables"></nav>
<div class="wide" tabindex="0" role="region" aria-labelledby="rows-name"><div id="grid"></div></div>
<p class="legend"><span class="sample-final"></span>final: it stays<span class="sample-tentative"></span>tentative: an earlier Write may still change it</p>
</section>
<section aria-labelledby="line-name">
<h2 id="line-name">A line</h2>
<form id="form"><label for="line">Line</label><input id="line" autocomplete="off" autocapitalize="none" spellcheck="false" placeholder="claim mon/9/blue mon/9/red kim"><button>Do</button><button type="button" id="again" hidden>again</button></form>
<pre id="log" role="log" aria-live="polite" aria-label="What was said" tabindex="0"></pre>
</section>
</div>
<div>
<section aria-labelledby="own-name"><h2 id="own-name">My Writes that aren't final</h2><ul id="own"></ul></section>
<section aria-labelledby="news-name"><h2 id="news-name">News</h2><ul id="news" role="log" aria-live="polite"></ul></section>
<section aria-labelledby="servers-name"><h2 id="servers-name">Servers</h2><ul id="servers"></ul></section>
<section aria-labelledby="session-name"><h2 id="session-name">The session</h2><dl id="session"></dl></section>
</div>
</main>
<script>
'use strict';
const token = location.hash.slice(1), POLL = 2000, MOST = 500;
const at = id => document.getElementById(id);
// Values are put into the page as text alone.
const el = (name, text, kind) => { const e = document.createElement(name); if (text != null) e.textContent = text; if (kind) e.className = kind; return e; };
let state = null, shown = '', tab = null, is_reached = true, seen_at = null, is_busy = false, timer = null, heard = 0;

async function ask(path, options) {
  const reply = await fetch(path, { ...options, headers: { authorization: 'Bearer ' + token, 'content-type': 'application/json' } });
  if (!reply.ok) throw new Error((await reply.text()).trim() || String(reply.status));
  return reply;
}

async function load() {
  clearTimeout(timer);
  try {
    const text = await (await ask('/state?prefix=' + encodeURIComponent(at('prefix').value.trim()))).text();
    is_reached = true; seen_at = new Date();
    if (text !== shown) { shown = text; state = JSON.parse(text); draw(); }
    tell();
  } catch (error) { is_reached = false; tell(error instanceof TypeError ? '' : error.message); }
  timer = setTimeout(load, document.hidden ? 5 * POLL : POLL);
}

function clock(time) { return time.toLocaleTimeString(); }

// Whether something may be claimed: some server is up, and the rows are what it told just now.
function may_write() { return is_reached && !is_busy && state && state.current; }

function tell(why) {
  const bar = at('bar');
  let text = '';
  if (!is_reached) text = why ? why : '`bayou web` isn’t reached. ' + (seen_at ? 'What is shown is of ' + clock(seen_at) + '; nothing can be claimed.' : '');
  else if (state && !state.current) text = state.server === null ? 'No server has answered yet.' : 'No server answers with all that you saw. What is shown was told last by server ' + state.server + '; nothing can be claimed.';
  if (bar.textContent !== text) bar.textContent = text;
  const up = state ? state.servers.filter(s => s.up).length : 0;
  const say = !state ? 'not asked yet' : !is_reached ? 'not reached' : up + ' of ' + state.servers.length + ' servers are up';
  if (at('state').textContent !== say) at('state').textContent = say;
  for (const button of at('grid').querySelectorAll('button')) button.disabled = !may_write();
}

const by_number = (a, b) => a.localeCompare(b, undefined, { numeric: true });
const value_of = row => row.type === 'num' ? row.value : row.value === '' ? '(empty)' : row.value;
const word_of = name => /^[A-Za-z][A-Za-z0-9._-]*$/.test(name) ? name : JSON.stringify(name);

function table_of(rows) {
  const tables = new Map(), others = [];
  for (const row of rows) {
    const parts = row.key.split('/');
    if (parts.length !== 3 || parts.some(part => part === '')) { others.push(row); continue; }
    if (!tables.has(parts[0])) tables.set(parts[0], []);
    tables.get(parts[0]).push({ row, line: parts[1], column: parts[2] });
  }
  return { tables, others };
}

function draw() {
  at('who').textContent = state.name ? 'as ' + state.name : 'without a name: nothing is claimed by a click';
  document.title = (state.name ? state.name + ' · ' : '') + 'Bayou';
  draw_rows(); draw_own(); draw_news(); draw_servers(); draw_session();
}

function draw_rows() {
  const { tables, others } = table_of(state.rows);
  const names = [...tables.keys()].sort(by_number);
  if (others.length) names.push('');
  if (!names.includes(tab)) tab = names.length ? names[0] : null;
  at('tabs').replaceChildren(...(names.length < 2 ? [] : names.map(name => {
    const button = el('button', name === '' ? 'other keys' : name);
    button.type = 'button'; button.setAttribute('aria-pressed', name === tab);
    button.onclick = () => { tab = name; draw_rows(); [...at('tabs').children].find(b => b.getAttribute('aria-pressed') === 'true').focus(); };
    return button;
  })));
  const focused = document.activeElement && document.activeElement.dataset ? document.activeElement.dataset.key : null;
  at('grid').replaceChildren(tab === null ? el('p', at('prefix').value ? 'No key that has a value begins so.' : 'No key has a value yet.', 'soft') : tab === '' ? list(others) : grid(tab, tables.get(tab), tables));
  if (focused) { const same = [...at('grid').querySelectorAll('button')].find(b => b.dataset.key === focused); if (same) same.focus(); }
  tell();
}

function cell(key, row, named) {
  const kind = row ? row.standing === null ? null : row.standing === 'final' ? 'final' : 'tentative' : 'free';
  const td = el('td', row ? value_of(row) : null, kind);
  if (row && kind === 'tentative') td.append(el('small', 'tentative'));
  if (!state.name) { if (!row) td.append(el('span', '–', 'soft')); return td; }
  if (!row || (row.type === 'text' && row.value === state.name)) {
    const button = el('button', row ? 'give back' : 'free');
    button.type = 'button'; button.dataset.key = key;
    button.setAttribute('aria-label', (row ? 'give back ' : 'claim ') + named);
    button.onclick = () => act(row ? back_line(key) : 'claim ' + key + ' ' + word_of(state.name));
    td.append(button);
  }
  return td;
}

// Only an own claim is given back, wherever the Write comes to stand.
function back_line(key) { return JSON.stringify(['write', 0, state.server, { check: [['equals', key, state.name]], update: [['del', key]] }]); }

function grid(name, cells, tables) {
  const { lines, columns } = sides(cells, tables);
  const found = new Map(cells.map(c => [c.line + '/' + c.column, c.row]));
  const table = el('table', null, 'table'), head = el('tr'), body = el('tbody'), top = el('thead');
  table.append(el('caption', name + ', at server ' + state.server));
  head.append(el('th', ''));
  for (const column of columns) { const th = el('th', column); th.scope = 'col'; head.append(th); }
  for (const line of lines) {
    const tr = el('tr'), th = el('th', line); th.scope = 'row'; tr.append(th);
    for (const column of columns) tr.append(cell(name + '/' + line + '/' + column, found.get(line + '/' + column), name + ' ' + line + ' ' + column));
    body.append(tr);
  }
  top.append(head); table.append(top, body);
  return table;
}

// Rows and columns are those of all tables that have a column of this one, as rooms and hours are the same each day; but its own alone, where those are many.
function sides(cells, tables) {
  const own = new Set(cells.map(c => c.column));
  const alike = [...tables.values()].filter(others => others.some(c => own.has(c.column))).flat();
  const few = (name, most) => { const all = [...new Set(alike.map(c => c[name]))]; return (all.length <= most ? all : [...new Set(cells.map(c => c[name]))]).sort(by_number); };
  return { lines: few('line', 48), columns: few('column', 24) };
}

function list(rows) {
  const table = el('table'), top = el('thead'), body = el('tbody'), head = el('tr');
  for (const name of ['key', 'value']) { const th = el('th', name); th.scope = 'col'; head.append(th); }
  for (const row of rows.slice(0, MOST)) { const tr = el('tr'), th = el('th', row.key); th.scope = 'row'; tr.append(th, cell(row.key, row, row.key)); body.append(tr); }
  table.append(el('caption', rows.length > MOST ? 'the first ' + MOST + ' of ' + rows.length + ' keys' : 'other keys'));
  top.append(head); table.append(top, body);
  return table;
}

// The line that made an own Write, as a person would say it.
function said(line) {
  if (!line) return 'a Write of an earlier call';
  const back = /"update":\[\["del","([^"]*)"\]\]/.exec(line);
  return line.startsWith('[') && back ? 'give back ' + back[1] : line;
}

// What a Write did: of a claim which key it has.
function did(told, line) {
  const words = (line || '').split(' '), place = told === 'update' ? 1 : told.startsWith('merge ') ? Number(told.slice(6)) + 1 : 0;
  if (words[0] === 'claim' && place > 0 && place < words.length - 1) return words[place] + ' is yours';
  return told === 'update' ? 'done' : told === 'none' ? 'it came to nothing' : told.startsWith('merge ') ? 'done, by its other choice ' + told.slice(6) : 'not known yet';
}

function draw_own() {
  at('own').replaceChildren(...(state.own.length ? state.own.map(own => {
    const li = el('li'); li.append(quoted(said(own.line)), el('br'), el('small', own.write + ': ' + did(own.told, own.line) + ', tentative')); return li;
  }) : [el('li', 'none', 'soft')]));
}

// A text of somebody else's, which turns no text around it.
const quoted = text => el('bdi', text);

// Who has the first key that a line claims.
function holder(line) {
  const words = (line || '').split(' ');
  if (words[0] !== 'claim') return [];
  const row = state.rows.find(row => row.key === words[1]);
  return row && row.value !== state.name ? ['; ' + words[1] + ' is ', quoted(value_of(row)), '’s'] : [];
}

function news_item(notice) {
  const words = notice.text.split(' '), now = words.slice(3).join(' '), before = now === 'none' ? holder(notice.line) : [], li = el('li');
  const say = (...parts) => { li.append(quoted(said(notice.line)), ...parts); return li; };
  if (words[1] === 'final') return say(': ' + did(now, notice.line) + ', final', ...before);
  if (words[1] === 'changed') return say(' fell back: ' + did(now, notice.line) + ', tentative', ...before);
  if (words[1] === 'tentative') return say(': ' + did(now, notice.line) + ', tentative', ...before);
  if (words[1] === 'forgot') return say(' isn’t followed any longer');
  li.append(quoted(notice.text));
  return li;
}

function draw_news() {
  const last = state.notices.length ? state.notices[state.notices.length - 1].number : 0;
  if (last === heard && at('news').children.length) return;
  if (!state.notices.length) at('news').replaceChildren(el('li', 'none', 'soft'));
  else {
    if (heard === 0) at('news').replaceChildren();
    for (const notice of state.notices.filter(n => n.number > heard)) at('news').prepend(news_item(notice));
    while (at('news').children.length > 20) at('news').lastChild.remove();
  }
  heard = last;
}

function draw_servers() {
  const most = state.servers.filter(s => s.at).map(s => s.at);
  const all = most.length ? most[0].map((_, i) => Math.max(...most.map(at => at[i]))) : [];
  at('servers').replaceChildren(...state.servers.map(server => {
    const li = el('li'), held = server.at ? server.at.reduce((a, b) => a + b, 0) : 0, behind = server.at ? all.reduce((a, b) => a + b, 0) - held : 0;
    li.append(el('b', 'server ' + server.id), ' ', el('span', server.up ? 'up' : 'away', server.up ? 'up' : 'away'), ' ', el('small', server.address), el('br'));
    li.append(el('small', !server.at ? 'it told nothing yet' : (server.up ? 'holds ' : 'held ') + server.at.join(',') + (behind ? ', ' + behind + ' behind' : '') + (server.limit ? '; ' + held + ' of ' + server.limit + ' Writes' + (held >= server.limit * .9 ? ', ALMOST FULL' : '') : '')));
    return li;
  }));
}

function draw_session() {
  const session = state.session;
  const rows = !session ? [['session', 'none']] : [['asks for', session.asks.length === 4 ? 'all four guarantees' : session.asks.join(', ') || 'nothing'], ['read', session.reads.join(',')], ['wrote', session.writes.join(',')]];
  at('session').replaceChildren(...rows.flatMap(([name, text]) => [el('dt', name), el('dd', text)]));
}

async function act(line) {
  if (is_busy || !line.trim()) return;
  is_busy = true; tell();
  let text;
  try {
    const reply = await (await ask('/do', { method: 'POST', body: JSON.stringify({ line }) })).json();
    text = [...reply.lines, ...reply.told].join('\n');
    at('again').hidden = !reply.lines.some(said => / lost$/.test(said));
  } catch (error) { text = 'the page: ' + error.message + '; it isn’t known whether the line was done'; at('again').hidden = false; }
  is_busy = false;
  const log = at('log');
  log.append((log.textContent ? '\n' : '') + '> ' + line + (text ? '\n' + text : ''));
  if (log.textContent.length > 50000) log.textContent = log.textContent.slice(-40000);
  log.scrollTop = log.scrollHeight;
  await load();
  setTimeout(load, 400);
}

// Arrows go from one place of a table to the next.
at('grid').onkeydown = event => {
  const step = { ArrowLeft: [0, -1], ArrowRight: [0, 1], ArrowUp: [-1, 0], ArrowDown: [1, 0] }[event.key], td = event.target.closest('td');
  if (!step || !td) return;
  let row = td.parentNode, column = td.cellIndex;
  for (;;) {
    const next = step[0] ? row = step[0] > 0 ? row.nextElementSibling : row.previousElementSibling : row;
    column += step[1];
    const there = next && next.cells[column];
    if (!there) return;
    const button = there.querySelector('button');
    if (button) { button.focus(); event.preventDefault(); return; }
  }
};
at('form').onsubmit = event => { event.preventDefault(); const line = at('line').value; at('line').value = ''; act(line); };
at('again').onclick = () => act('again');
at('filter').onsubmit = event => { event.preventDefault(); load(); };
at('prefix').oninput = () => { clearTimeout(timer); timer = setTimeout(load, 250); };
document.addEventListener('visibilitychange', () => { if (!document.hidden) load(); });
load();
</script>
</body>
</html>
"#;

/// Its script and its style may run, and nothing else: they are known by their SHA-256.
pub const POLICY: &str =
    "default-src 'none'; script-src 'sha256-oioFfmJ/3HdLD1VTNVFzlZxhGgpcSHq9IhbyFyQ8i0M='; style-src 'sha256-t912tQ06t4SHlLENfWkYgNVX/FQOeWBnKx3QarC6Kmc='; connect-src 'self'; base-uri 'none'; form-action 'none'; frame-ancestors 'none'";
