//! The page: one document that never changes. What it shows comes as text and as a picture, and is set as text, so that nothing of
//! a client becomes markup.

/// The document. Each second its script fetches `/state` and `/events`, and shows `/picture.svg`; what its form and its buttons
/// send goes to `/line`.
pub const DOCUMENT: &str = "<!DOCTYPE html>
<html lang=\"en\"><head><meta charset=\"utf-8\"><title>live cluster</title>
<style>
body{font:14px sans-serif;margin:1em}
pre{background:#f2f2f2;padding:.6em;overflow:auto}
button{margin:2px}
img{max-width:100%}
#row{display:flex;gap:1em;flex-wrap:wrap}
</style></head>
<body>
<h1>live cluster <small id=\"clock\"></small></h1>
<div id=\"row\"><pre id=\"table\"></pre><pre id=\"servers\"></pre></div>
<form id=\"form\"><input id=\"line\" size=\"60\" placeholder=\"crash a\" autocomplete=\"off\"><button>send</button></form>
<div id=\"buttons\"></div>
<pre id=\"answer\"></pre>
<img id=\"picture\" alt=\"picture of the last minutes\">
<h2>last events</h2>
<pre id=\"events\"></pre>
<script>
'use strict';
const at = id => document.getElementById(id);
const set = (id, text) => { if (at(id).textContent !== text) at(id).textContent = text; };
const get = async path => (await fetch(path)).text();
async function send(lines) {
  let said = '';
  for (const line of lines) {
    const answer = await fetch('/line', { method: 'POST', body: line, headers: { 'Live-Line': 'yes' } });
    said += line + '\\n' + await answer.text();
  }
  set('answer', said);
  show();
}
at('form').addEventListener('submit', event => { event.preventDefault(); send([at('line').value]); });
const ask = (name, call, body) => ['rest ' + name + ' ' + call + ' ' + JSON.stringify(body)];
const common = name => [
  ['power off', ['crash ' + name, 'kill ' + name]],
  ['hold', ['hold ' + name]],
  ['resume', ['resume ' + name]],
  ['restart', ['restart ' + name]],
  ['cut the store', ['cut ' + name + ' store']],
  ['join the store', ['join ' + name + ' store']],
  ['switch over from', ask(name, 'POST /switchover', { leader: name })],
  ['pause by', ask(name, 'PATCH /config', { pause: true })],
  ['end pause by', ask(name, 'PATCH /config', { pause: null })],
];
let shown = '', last = '';
function buttons(names) {
  if (names.join(' ') === shown) return;
  shown = names.join(' ');
  at('buttons').textContent = '';
  for (const name of names) {
    const row = document.createElement('div');
    for (const [word, lines] of common(name)) {
      const button = document.createElement('button');
      button.textContent = word + ' ' + name;
      button.addEventListener('click', () => send(lines));
      row.append(button);
    }
    at('buttons').append(row);
  }
}
async function show() {
  try {
    const [clock, ...rest] = (await get('/state')).split('\\n');
    const cut = rest.indexOf('');
    const servers = rest.slice(cut + 1).filter(line => line);
    set('clock', 'tick ' + clock);
    set('table', rest.slice(0, cut).join('\\n'));
    set('servers', servers.join('\\n'));
    buttons(servers.map(line => line.split(':')[0]));
    const events = await get('/events');
    if (events === last) return;
    last = events;
    set('events', events.split('\\n').reverse().join('\\n'));
    at('picture').src = '/picture.svg?' + clock;
  } catch (error) {
    set('clock', 'ended');
  }
}
show();
setInterval(show, 1000);
</script>
</body></html>
";
