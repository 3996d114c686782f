//! What stands before the picture in a page, as page/embed.py puts it together.

/// What stands before the picture in a page.
pub const HEAD: &str = "\
<!DOCTYPE html>\n\
<html lang=\"en\">\n\
<head>\n\
<meta charset=\"utf-8\">\n\
<meta http-equiv=\"Content-Security-Policy\" content=\"default-src 'none'; script-src 'sha256-1nlnLpJ/XMYU/zyadNdXfslWvZgDpVPrw3gDdwm88e0='; style-src 'sha256-NbcQrIM4eVW4QaLXMQY03C8AuYW+6O+cujeuwNumQz4='; base-uri 'none'; form-action 'none'\">\n\
<meta name=\"viewport\" content=\"width=device-width, initial-scale=1\">\n\
<title>Transit map</title>\n\
<style>\n\
:root { color-scheme: light dark; --paper: #fff; --panel: #f6f7f9; --ink: #16181d; --faint: #5a6270; --hover: #e0e5ee; --focus: #0b57d0; }\n\
path.on-dark { display: none; }\n\
path.thin-on-white { stroke-width: var(--thin); }\n\
i.on-white { border-color: var(--edge) !important; }\n\
@media screen and (prefers-color-scheme: dark) {\n\
\x20 :root { --paper: #15181c; --panel: #1d2127; --ink: #eceff4; --faint: #a9b1bd; --hover: #333a45; --focus: #8ab4f8; }\n\
\x20 path.on-white { display: none; }\n\
\x20 path.on-dark { display: inline; }\n\
\x20 path.thin-on-white { stroke-width: inherit; }\n\
\x20 path.thin-on-dark { stroke-width: var(--thin); }\n\
\x20 i.on-white { border-color: transparent !important; }\n\
\x20 i.on-dark { border-color: var(--edge) !important; }\n\
}\n\
* { box-sizing: border-box; margin: 0; padding: 0; }\n\
[hidden] { display: none !important; }\n\
html, body { height: 100%; }\n\
body { display: grid; grid-template: minmax(0, 1fr) / 18rem minmax(0, 1fr); background: var(--paper); color: var(--ink); font: 15px/1.35 system-ui, sans-serif; }\n\
h1, h2, summary { font-size: 1rem; font-weight: 600; }\n\
h1, h2, bdi, small { overflow-wrap: anywhere; }\n\
li { list-style: none; }\n\
button, input { border: 1px solid var(--faint); border-radius: 6px; background: var(--paper); color: inherit; font: inherit; }\n\
:focus-visible, [aria-selected=true] { outline: 3px solid var(--focus); outline-offset: -3px; }\n\
\n\
#panel { display: flex; flex-direction: column; gap: .6rem; padding: .8rem; overflow: auto; background: var(--panel); }\n\
#panel > * { flex: none; }\n\
#size, #note, #count, small { color: var(--faint); font-size: .85rem; }\n\
#find { width: 100%; padding: .45rem .6rem; }\n\
#count:not(:empty) { padding: .3rem .4rem; }\n\
#card { position: relative; padding: .6rem; border-radius: 6px; background: var(--paper); }\n\
#chosen, #note { padding-right: 2rem; }\n\
#close { position: absolute; inset: .3rem .3rem auto auto; width: 1.8rem; height: 1.8rem; }\n\
#parts { max-height: 38vh; overflow: auto; }\n\
li button { display: flex; flex-wrap: wrap; gap: 0 .5rem; align-items: baseline; width: 100%; padding: .3rem .4rem; border: 0; background: none; text-align: start; }\n\
i + bdi { max-width: calc(100% - 2.2rem); }\n\
li button:hover, [aria-pressed=true], [aria-selected=true] { background: var(--hover); }\n\
small i { margin-inline-end: .2rem; }\n\
i { display: inline-block; width: .7rem; height: .7rem; border: 1px solid transparent; border-radius: 3px; background: currentColor; print-color-adjust: exact; }\n\
#lines i { width: 1.6rem; }\n\
#save button { margin: .4rem .4rem 0 0; padding: .3rem 1rem; }\n\
\n\
#view { position: relative; grid-area: 1 / 2; overflow: hidden; }\n\
#view > *, #plane svg { position: absolute; }\n\
#plane, #plane svg { left: 0; top: 0; transform-origin: 0 0; overflow: visible; stroke-linecap: round; stroke-linejoin: round; }\n\
.moving { will-change: transform; }\n\
.dim #sheet { opacity: .2; }\n\
svg path { fill: none; stroke: currentColor; }\n\
.markers .rim { stroke: var(--ink); }\n\
.markers .fill { stroke: var(--paper); }\n\
.markers .circle { fill: var(--paper); stroke: var(--ink); }\n\
.names { fill: var(--ink); stroke: var(--paper); paint-order: stroke; }\n\
#glass { inset: 0; cursor: grab; touch-action: none; }\n\
#tip { left: 0; top: 0; max-width: 20rem; padding: .25rem .6rem; border-radius: 6px; background: var(--ink); color: var(--paper); pointer-events: none; }\n\
#zoom { position: relative; grid-area: 1 / 2; place-self: end; display: grid; gap: .3rem; margin: .8rem; }\n\
#zoom button { width: 2.6rem; height: 2.6rem; }\n\
#trouble, noscript { inset: 40% 10% auto; text-align: center; }\n\
#said { position: absolute; clip-path: inset(50%); }\n\
\n\
@media (pointer: coarse) {\n\
\x20 li button, summary { padding-block: .6rem; }\n\
}\n\
@media screen and (max-width: 44rem) {\n\
\x20 body { grid-template: \"top\" auto \"more\" auto \"view\" minmax(0, 1fr) \"card\" auto / minmax(0, 1fr); }\n\
\x20 #panel { display: contents; }\n\
\x20 #top { grid-area: top; padding: .5rem .8rem 0; background: var(--panel); }\n\
\x20 #more { grid-area: more; display: flex; flex-wrap: wrap; gap: 0 1.5rem; padding: .3rem .8rem; background: var(--panel); }\n\
\x20 #view, #zoom { grid-area: view; }\n\
\x20 #card { grid-area: card; display: flex; flex-direction: column; max-height: 40vh; border-radius: 0; background: var(--panel); }\n\
\x20 #name:not(.own), #size { display: none; }\n\
\x20 #find { font-size: 16px; }\n\
\x20 #search { position: relative; }\n\
\x20 #hits { position: absolute; inset: 100% 0 auto; z-index: 1; max-height: 45vh; overflow: auto; border: 1px solid var(--faint); background: var(--panel); }\n\
\x20 #parts { min-height: 3rem; }\n\
\x20 #lines { max-height: 40vh; overflow: auto; }\n\
\x20 details[open] { flex-basis: 100%; }\n\
}\n\
@media screen and (max-height: 30rem) {\n\
\x20 body { grid-template-columns: 15rem minmax(0, 1fr) auto; }\n\
\x20 #zoom { grid-area: 1 / 3; }\n\
}\n\
@media screen and (max-width: 44rem) and (max-height: 30rem) {\n\
\x20 body { grid-template: \"top top\" auto \"more more\" auto \"view zoom\" minmax(0, 1fr) \"card card\" auto / minmax(0, 1fr) auto; }\n\
\x20 #zoom { grid-area: zoom; }\n\
}\n\
@media print {\n\
\x20 @page { size: landscape; margin: 10mm; }\n\
\x20 body { display: flex; flex-direction: column-reverse; justify-content: start; }\n\
\x20 #panel > :not(#top, #more), #name:not(.own), #size, #search, #save, #zoom, #tip, summary, #lifted { display: none; }\n\
\x20 #panel { padding: 0; background: none; }\n\
\x20 #lines { columns: 5; }\n\
\x20 #plane, #sheet { position: static !important; width: 100% !important; max-height: 160mm; transform: none !important; opacity: 1 !important; }\n\
}\n\
</style>\n\
</head>\n\
<body>\n\
<header id=\"panel\">\n\
<div id=\"top\">\n\
<h1 id=\"name\" dir=\"auto\">Transit map</h1>\n\
<p id=\"size\"></p>\n\
<form id=\"search\" role=\"search\">\n\
<label for=\"find\">Find a station or a line</label>\n\
<input id=\"find\" type=\"search\" role=\"combobox\" aria-autocomplete=\"list\" aria-controls=\"found\" aria-expanded=\"false\" autocomplete=\"off\">\n\
<div id=\"hits\" hidden>\n\
<ul id=\"found\" role=\"listbox\" aria-label=\"Found\"></ul>\n\
<p id=\"count\"></p>\n\
</div>\n\
</form>\n\
</div>\n\
<section id=\"card\" aria-labelledby=\"chosen\" hidden>\n\
<h2 id=\"chosen\" dir=\"auto\" tabindex=\"-1\"></h2>\n\
<button id=\"close\" aria-label=\"Close\">&#215;</button>\n\
<p id=\"note\"></p>\n\
<ul id=\"parts\" aria-labelledby=\"note\"></ul>\n\
</section>\n\
<div id=\"more\">\n\
<details id=\"legend\">\n\
<summary>Lines</summary>\n\
<ul id=\"lines\"></ul>\n\
</details>\n\
<details id=\"save\">\n\
<summary>Save as a picture</summary>\n\
<button id=\"png\">PNG</button>\n\
<button id=\"svg\">SVG</button>\n\
</details>\n\
</div>\n\
</header>\n\
<main id=\"view\" tabindex=\"0\" aria-label=\"Map: arrow keys move it, plus and minus zoom, 0 shows all of it\">\n\
<div id=\"plane\">\n\
<svg id=\"sheet\" role=\"img\" aria-labelledby=\"name size\"><g class=\"edges\"></g><g class=\"routes\"></g><g class=\"markers\"></g><g class=\"names\"></g></svg>\n\
<svg id=\"lifted\" aria-hidden=\"true\"><g class=\"edges\"></g><g class=\"routes\"></g><g class=\"markers\"></g><g class=\"names\"></g></svg>\n\
</div>\n\
<div id=\"glass\"></div>\n\
<p id=\"tip\" dir=\"auto\" hidden></p>\n\
<p id=\"trouble\" hidden>This picture shows no map.</p>\n\
<noscript>A script draws the map: scripts are off.</noscript>\n\
</main>\n\
<div id=\"zoom\">\n\
<button id=\"closer\" aria-label=\"Zoom in\">+</button>\n\
<button id=\"farther\" aria-label=\"Zoom out\">&#8722;</button>\n\
<button id=\"whole\" aria-label=\"Show the whole map\">All</button>\n\
</div>\n\
<p id=\"said\" role=\"status\"></p>\n\
<script>\n\
'use strict';\n\
\n\
const NUMBERS = /-?\\d+(\\.\\d+)?/g;\n\
const numbersOf = (element, name) => (element?.getAttribute(name) || '').match(NUMBERS)?.map(Number) || [];\n\
const wordsOf = element => (element?.textContent || '').replace(/\\s+/g, ' ').trim();\n\
\n\
/* What a map or a poster shows, in the page's measures: lines with their ways over segments, and stations; null where\n\
\x20  it is neither. Only numbers, colours and names are taken from it. */\n\
function readPicture(text) {\n\
\x20 const root = new DOMParser().parseFromString(text, 'text/html');\n\
\x20 const { lines: byNumber, segments, ends } = readLines(root), lines = [...byNumber.values()];\n\
\x20 const groups = [...root.querySelectorAll('g')].filter(({ className }) => /^n\\d+( l\\d+)*$/.test(className.baseVal));\n\
\x20 const stations = groups.length > 0 ? groups.flatMap(group => posterStation(group, byNumber)) : mapStations(root);\n\
\x20 if (lines.length + stations.length === 0) return null;\n\
\x20 const stationAt = new Map(stations.map(station => [`${station.x},${station.y}`, station]));\n\
\x20 lines.forEach(line => listStations(line, stationAt));\n\
\x20 for (const [place, { length }] of groupsOf(ends, end => end).map(group => [group[0], group])) {\n\
\x20   const station = stationAt.get(place);\n\
\x20   if (station) station.isInterchange = length > 2 && station.lines.size > 1;\n\
\x20 }\n\
\x20 const measures = measuresOf(lines, stations);\n\
\x20 takeOver(lines, stations, measures);\n\
\x20 return {\n\
\x20   name: wordsOf(root.querySelector('svg > title')), tellsCalls: groups.length > 0,\n\
\x20   lines, stations, parts: measures.parts, step: measures.step,\n\
\x20   ...boxOf([...centresOf(lines), ...stations.map(({ x, y }) => [x, y])]),\n\
\x20   widest: [...segments.values()].reduce((most, ways) => Math.max(most, ways.length), 1),\n\
\x20 };\n\
}\n\
\n\
/* Lines by number, segments, and where segments end. The wider copy below a pale line of a poster is no line: it has a\n\
\x20  width of its own in a group that has one. */\n\
function readLines(root) {\n\
\x20 const lines = new Map(), segments = new Map(), joins = [];\n\
\x20 for (const element of root.querySelectorAll('path')) {\n\
\x20   const [, kind, place, number] = /^([sn])(\\d+) l(\\d+)$/.exec(element.getAttribute('class')) || [];\n\
\x20   const { points, bends } = cornersOf(element.getAttribute('d') || '');\n\
\x20   const isCopy = element.hasAttribute('stroke-width') && element.parentElement.closest('[stroke-width]');\n\
\x20   if (!kind || points.length < 4 || points.length % 2 > 0 || isCopy) continue;\n\
\x20   if (!lines.has(number)) lines.set(number, newLine(number, element));\n\
\x20   const way = { line: lines.get(number), points, bends };\n\
\x20   if (kind === 's') segments.set(place, [...segments.get(place) || [], way]);\n\
\x20   else joins.push(way);\n\
\x20 }\n\
\x20 const ends = [...segments.values()].flatMap(centreWays);\n\
\x20 joins.forEach(linkJoin);\n\
\x20 return { lines, segments, ends };\n\
}\n\
\n\
/* The corners of a path, and how far from each of them its bend begins, 0 where it is sharp. A bend is a straight piece\n\
\x20  to where it begins, and a curve by its corner to where it ends. */\n\
function cornersOf(way) {\n\
\x20 const points = [], bends = [];\n\
\x20 for (const [, kind, told] of way.matchAll(/([A-Za-z])([^A-Za-z]*)/g)) {\n\
\x20   const numbers = told.match(NUMBERS)?.map(Number) || [];\n\
\x20   if (kind === 'Q' && points.length > 0) {\n\
\x20     const [right, down] = points.splice(-2);\n\
\x20     bends.splice(-1, 1, Math.hypot(numbers[0] - right, numbers[1] - down));\n\
\x20     points.push(...numbers.slice(0, 2));\n\
\x20   } else {\n\
\x20     points.push(...numbers);\n\
\x20     bends.push(...numbers.slice(0, numbers.length / 2).fill(0));\n\
\x20   }\n\
\x20 }\n\
\x20 return { points, bends };\n\
}\n\
\n\
function newLine(number, element) {\n\
\x20 const told = element.getAttribute('stroke'), colour = /^#[0-9a-f]{6}$/i.test(told) ? told : '#808080';\n\
\x20 const name = wordsOf(element.querySelector('title')) || `Line ${number}`;\n\
\x20 const [stroke] = numbersOf(element.closest('[stroke-width]'), 'stroke-width');\n\
\x20 return { kind: 'line', colour, edge: edgeOf(colour), name, stroke, ways: [], ends: new Map() };\n\
}\n\
\n\
/* A map has a circle for each station, and its name behind; a map with names at free places has left some out. */\n\
function mapStations(root) {\n\
\x20 const stations = [...root.querySelectorAll('circle')].map(circle => {\n\
\x20   const [x, y, radius] = ['cx', 'cy', 'r'].map(name => numbersOf(circle, name)[0]);\n\
\x20   return { kind: 'station', x, y, radius, feet: [[0, 0]], name: '', lines: new Set() };\n\
\x20 }).filter(({ x, y, radius }) => radius >= 0 && Number.isFinite(x + y));\n\
\x20 const texts = [...root.querySelectorAll('text')], isWhole = texts.length === stations.length;\n\
\x20 let last = -1;\n\
\x20 for (const text of texts) {\n\
\x20   let next = last + 1;\n\
\x20   while (next < stations.length && !isWhole && !standsBy(text, stations[next])) next++;\n\
\x20   if (next < stations.length) stations[last = next].name = wordsOf(text);\n\
\x20 }\n\
\x20 return stations;\n\
}\n\
\n\
/* Does a name stand at one of the eight places round this station? It is as wide as three fifths of its size for each\n\
\x20  character, and a fifth away. */\n\
function standsBy(text, station) {\n\
\x20 const [x, y, size] = ['x', 'y', 'font-size'].map(name => numbersOf(text, name)[0]);\n\
\x20 const right = x - station.x, down = y - station.y, gap = size / 5;\n\
\x20 const away = station.radius + gap, width = 3 * gap * [...text.textContent].length;\n\
\x20 if (right === away || right === -away - width) return [-away, 2 * gap, away + size].includes(down);\n\
\x20 return right === -width / 2 && [-away - gap, away + size].includes(down);\n\
}\n\
\n\
/* A poster tells the lines that call at a station, and has its marker over their feet: their ends there. A station\n\
\x20  where none calls has no marker, and is left out. */\n\
function posterStation(group, lines) {\n\
\x20 const calling = group.className.baseVal.split(' ').slice(1).flatMap(word => lines.get(word.slice(1)) || []);\n\
\x20 const marker = group.querySelector('path'), points = numbersOf(marker, 'd');\n\
\x20 const feet = points.flatMap((_, i) => {\n\
\x20   const line = i % 2 === 0 && calling.find(({ ends }) => ends.has(placeOf(points, i)));\n\
\x20   return line ? [line.ends.get(placeOf(points, i))] : [];\n\
\x20 });\n\
\x20 if (feet.length === 0) return [];\n\
\x20 const [x, y] = feet[0][0], radius = Math.max(4, (numbersOf(marker, 'stroke-width')[0] || 20) / 2 - 2);\n\
\x20 return {\n\
\x20   kind: 'station', x, y, radius, feet: feet.map(([, shift]) => shift),\n\
\x20   name: wordsOf(group.querySelector('title')), lines: new Set(calling), isTold: true,\n\
\x20 };\n\
}\n\
\n\
const placeOf = (points, i) => `${points[i]},${points[i + 1]}`;\n\
\n\
/* The lines of a segment lie evenly about its middle: how far each is shifted from there. Where the segment ends. */\n\
function centreWays(ways) {\n\
\x20 const first = ways[0].points, last = ways[ways.length - 1].points;\n\
\x20 const centre = first.map((value, i) => (value + (last[i] ?? value)) / 2);\n\
\x20 for (const { line, points, bends } of ways) {\n\
\x20   const shift = centre.map((value, i) => (points[i] ?? value) - value);\n\
\x20   line.ways.push({ centre, shift, bends });\n\
\x20   for (const i of [0, centre.length - 2]) {\n\
\x20     line.ends.set(placeOf(points, i), [centre.slice(i, i + 2), shift.slice(i, i + 2)]);\n\
\x20   }\n\
\x20 }\n\
\x20 return [placeOf(centre, 0), placeOf(centre, centre.length - 2)];\n\
}\n\
\n\
/* A join leads between ends of a line, shifted with both. */\n\
function linkJoin({ line, points }) {\n\
\x20 const [from, to] = [0, 2].map(i => line.ends.get(placeOf(points, i)) || [points.slice(i, i + 2), [0, 0]]);\n\
\x20 line.ways.push({ centre: [...from[0], ...to[0]], shift: [...from[1], ...to[1]], bends: [0, 0] });\n\
}\n\
\n\
/* Lists the stations of a line from an end on, branch by branch: those where it calls, where that is told. */\n\
function listStations(line, stationAt) {\n\
\x20 const next = new Map(), met = new Set();\n\
\x20 for (const { centre } of line.ways) {\n\
\x20   const ends = [placeOf(centre, 0), placeOf(centre, centre.length - 2)];\n\
\x20   ends.forEach((end, i) => next.set(end, [...next.get(end) || [], ends[1 - i]]));\n\
\x20 }\n\
\x20 const waiting = [...next.keys()].sort((a, b) => next.get(b).length - next.get(a).length);\n\
\x20 while (waiting.length > 0) {\n\
\x20   const place = waiting.pop();\n\
\x20   if (!met.has(place)) waiting.push(...next.get(place));\n\
\x20   met.add(place);\n\
\x20 }\n\
\x20 const stations = [...met].flatMap(place => stationAt.get(place) || []);\n\
\x20 line.stations = stations.filter(({ isTold, lines }) => !isTold || lines.has(line));\n\
\x20 for (const station of line.stations) station.lines.add(line);\n\
}\n\
\n\
/* The page's own measures: lines are 12 wide, and what lies beside each other is 200 apart, as on a map on its grid. */\n\
const STROKE = 12, APART = 200, MARGIN = 200;\n\
\n\
/* The measures of a picture: what its widths, and what its distances, are multiplied by to be those of the page; from\n\
\x20  which place on; to which part of a unit ways are drawn; and the step of its grid, from 20 to 200. A map over the\n\
\x20  ground has no grid, and lines that are thin for its distances: there the step is what a tenth of the ways from\n\
\x20  station to station fall short of. */\n\
function measuresOf(lines, stations) {\n\
\x20 const widths = STROKE / (lines[0]?.stroke || STROKE), grid = gridOf(lines) * widths;\n\
\x20 const spans = grid < 20 ? spansOf(lines, stations) : [];\n\
\x20 if (spans.length === 0) {\n\
\x20   return { widths, distances: widths, left: 0, top: 0, parts: 1, step: Math.max(20, Math.min(grid || APART, APART)) };\n\
\x20 }\n\
\x20 const { left, top } = boxOf(centresOf(lines), 0);\n\
\x20 return { widths, distances: APART / spans[Math.floor(spans.length / 10)], left, top, parts: 10, step: APART };\n\
}\n\
\n\
const centresOf = lines => lines.flatMap(({ ways }) => ways.map(({ centre }) => centre));\n\
\n\
/* How far the ends of ways are apart, the least first: of those from station to station, where there are any. */\n\
function spansOf(lines, stations) {\n\
\x20 const places = new Set(stations.map(({ x, y }) => `${x},${y}`)), isStop = (...at) => places.has(placeOf(...at));\n\
\x20 const spanOf = centre => Math.hypot(centre[0] - centre[centre.length - 2], centre[1] - centre[centre.length - 1]);\n\
\x20 const ways = centresOf(lines).filter(centre => spanOf(centre) > 0);\n\
\x20 const runs = ways.filter(centre => isStop(centre, 0) && isStop(centre, centre.length - 2));\n\
\x20 return (runs.length > 0 ? runs : ways).map(spanOf).sort((a, b) => a - b);\n\
}\n\
\n\
/* What divides all places of lines, 0 where there is none. */\n\
function gridOf(lines) {\n\
\x20 let step = 0;\n\
\x20 for (const value of new Set(centresOf(lines).flat())) {\n\
\x20   for (let rest = Math.round(Math.abs(value)); rest > 0;) [step, rest] = [rest, step % rest];\n\
\x20 }\n\
\x20 return step;\n\
}\n\
\n\
/* Takes lines and stations over into the page's measures. The marker of a map is larger where more lines stop. */\n\
function takeOver(lines, stations, { widths, distances, left, top }) {\n\
\x20 const placed = places => places.map((value, i) => (value - [left, top][i % 2]) * distances);\n\
\x20 const widened = shift => shift.map(value => value * widths);\n\
\x20 for (const line of lines) {\n\
\x20   line.ways = line.ways.map(({ centre, shift, bends }) => (\n\
\x20     { centre: placed(centre), shift: widened(shift), bends: bends.some(bend => bend > 0) ? widened(bends) : null }\n\
\x20   ));\n\
\x20 }\n\
\x20 for (const station of stations) {\n\
\x20   const [x, y] = placed([station.x, station.y]), feet = station.feet.map(widened), radius = station.radius * widths;\n\
\x20   Object.assign(station, { x, y, feet, radius });\n\
\x20   if (!station.isTold) station.radius = Math.max(radius, 3 + 7 * Math.sqrt(station.lines.size));\n\
\x20   station.reach = station.radius + Math.max(...feet.map(([right, down]) => Math.hypot(right, down)));\n\
\x20 }\n\
}\n\
\n\
/* The rectangle round all these places, with a margin. */\n\
function boxOf(runs, margin = MARGIN) {\n\
\x20 const least = [Infinity, Infinity], most = [-Infinity, -Infinity];\n\
\x20 for (const run of runs) {\n\
\x20   run.forEach((value, i) => {\n\
\x20     least[i % 2] = Math.min(least[i % 2], value);\n\
\x20     most[i % 2] = Math.max(most[i % 2], value);\n\
\x20   });\n\
\x20 }\n\
\x20 const [left, top] = least.map(value => value - margin), [right, bottom] = most.map(value => value + margin);\n\
\x20 return { left, top, width: right - left, height: bottom - top };\n\
}\n\
\n\
const LIGHT_INK = [236, 239, 244], DARK_INK = [22, 24, 29];\n\
const partsOf = colour => [1, 3, 5].map(i => parseInt(colour.slice(i, i + 2), 16));\n\
const hexOf = parts => `#${parts.map(part => Math.round(part).toString(16).padStart(2, '0')).join('')}`;\n\
\n\
/* How light a colour is, from 0 for black to 1 for white: its relative luminance (WCAG 2). */\n\
function lightOf(parts) {\n\
\x20 const [red, green, blue] = parts.map(part => part <= 10 ? part / 255 / 12.92 : ((part / 255 + .055) / 1.055) ** 2.4);\n\
\x20 return .2126 * red + .7152 * green + .0722 * blue;\n\
}\n\
\n\
/* The edge of a line that has less than 3 to 1 of contrast with white paper, or with the dark paper of the style, and\n\
\x20  on which of them it is drawn; null where the line is seen well on both. It has the line's colour with as much ink as\n\
\x20  it takes for 4.5 to 1. */\n\
function edgeOf(colour) {\n\
\x20 const parts = partsOf(colour), light = lightOf(parts);\n\
\x20 if (light > .3) return { paper: 'on-white', colour: inked(parts, DARK_INK, mixed => lightOf(mixed) <= .18) };\n\
\x20 if (light < .13) return { paper: 'on-dark', colour: inked(parts, LIGHT_INK, mixed => lightOf(mixed) >= .215) };\n\
\x20 return null;\n\
}\n\
\n\
/* A colour with the least ink, by twentieths, with which it is seen. */\n\
function inked(parts, ink, isSeen) {\n\
\x20 const mixed = [...Array(21).keys()].map(k => parts.map((part, i) => part + (ink[i] - part) * k / 20));\n\
\x20 return hexOf(mixed.find(isSeen) || ink);\n\
}\n\
\n\
const byId = id => document.getElementById(id);\n\
const on = (target, name, act) => target.addEventListener(name, act, { passive: false });\n\
const stop = event => { event.preventDefault(); event.stopPropagation(); };\n\
const make = (kind, about, ...inside) => {\n\
\x20 const element = Object.assign(document.createElement(kind), about);\n\
\x20 element.append(...inside);\n\
\x20 return element;\n\
};\n\
\n\
const collator = new Intl.Collator('en', { numeric: true });\n\
const byName = things => [...things].sort((a, b) => collator.compare(a.name, b.name));\n\
const titleOf = ({ name }) => name || 'No name';\n\
const folded = text => text.normalize('NFD').replace(/\\p{M}/gu, '').toLowerCase().replaceAll('\\u00df', 'ss').trim();\n\
const linesInWords = lines => byName(lines).map(titleOf).join(', ');\n\
const inWords = thing => [titleOf(thing), thing.word, nearOf(thing)].filter(Boolean).join(', ');\n\
\n\
/* Things by their words, in their order. */\n\
function groupsOf(things, wordsOf) {\n\
\x20 const groups = new Map();\n\
\x20 for (const thing of things) {\n\
\x20   const words = wordsOf(thing), group = groups.get(words);\n\
\x20   if (group) group.push(thing);\n\
\x20   else groups.set(words, [thing]);\n\
\x20 }\n\
\x20 return [...groups.values()];\n\
}\n\
\n\
/* The things whose words others have too. */\n\
const alike = (things, wordsOf) => groupsOf(things, wordsOf).filter(({ length }) => length > 1).flat();\n\
\n\
/* Things of one name are told apart in words: lines by where they begin and end, stations by their lines, and where\n\
\x20  these are the same too by the nearest station of another name. */\n\
function tellApart({ lines, stations }) {\n\
\x20 for (const line of alike(lines, titleOf)) {\n\
\x20   const [first, last] = [line.stations[0], line.stations[line.stations.length - 1]];\n\
\x20   if (first !== last) line.word = `${titleOf(first)} to ${titleOf(last)}`;\n\
\x20 }\n\
\x20 const named = alike(stations, titleOf);\n\
\x20 for (const station of named) station.word = linesInWords(station.lines);\n\
\x20 for (const station of alike(named, inWords)) station.others = stations;\n\
}\n\
\n\
function nearOf({ x, y, name, others = [] }) {\n\
\x20 let near = '', least = Infinity;\n\
\x20 for (const one of others) {\n\
\x20   const away = Math.hypot(one.x - x, one.y - y);\n\
\x20   if (one.name && one.name !== name && away < least) [near, least] = [`near ${one.name}`, away];\n\
\x20 }\n\
\x20 return near;\n\
}\n\
\n\
/* A part of the sheet in squares: empty (0), crossed by lines, or taken (Infinity). */\n\
class Squares {\n\
\x20 constructor({ left, top, width, height }, side, courses) {\n\
\x20   Object.assign(this, { left, top, side, columns: Math.ceil(width / side), rows: Math.ceil(height / side) });\n\
\x20   const pen = new OffscreenCanvas(this.columns, this.rows).getContext('2d');\n\
\x20   pen.setTransform(1 / side, 0, 0, 1 / side, -left / side, -top / side);\n\
\x20   pen.lineWidth = side;\n\
\x20   courses.forEach(course => pen.stroke(course));\n\
\x20   const pixels = pen.getImageData(0, 0, this.columns, this.rows).data;\n\
\x20   this.marks = Float32Array.from({ length: pixels.length / 4 }, (_, i) => pixels[4 * i + 3] / 255);\n\
\x20 }\n\
\n\
\x20 /* How much of a rectangle is crossed (Infinity: taken, or outside); it may then be taken. */\n\
\x20 crossed(x, y, width, height, isTaken) {\n\
\x20   const [first, last] = [x, x + width].map(value => Math.floor((value - this.left) / this.side));\n\
\x20   const [top, bottom] = [y, y + height].map(value => Math.floor((value - this.top) / this.side));\n\
\x20   if (!(first >= 0 && top >= 0 && last < this.columns && bottom < this.rows)) return Infinity;\n\
\x20   let crossed = 0;\n\
\x20   for (let row = top * this.columns; row <= bottom * this.columns; row += this.columns) {\n\
\x20     if (isTaken) this.marks.fill(Infinity, row + first, row + last + 1);\n\
\x20     for (let i = first; i <= last; i++) crossed += this.marks[row + i];\n\
\x20   }\n\
\x20   return crossed;\n\
\x20 }\n\
}\n\
\n\
/* Places of a name, best first: the way from its marker, the parts of it left of there and above. */\n\
const SIDES = [\n\
\x20 [1, 0, 0, .5], [-1, 0, 1, .5], [.7, -.7, 0, 1], [.7, .7, 0, 0],\n\
\x20 [-.7, -.7, 1, 1], [-.7, .7, 1, 0], [0, -1, .5, 1], [0, 1, .5, 0],\n\
];\n\
const pen = Object.assign(new OffscreenCanvas(1, 1).getContext('2d'), { lineCap: 'round', lineJoin: 'round' });\n\
\n\
/* Names, those of interchanges first and then those of more lines, where least is crossed and nothing taken; an\n\
\x20  interchange is named over its lines too. Some find none. */\n\
function placeNames(stations, squares, { letters, reachOf, most }) {\n\
\x20 for (const station of stations) {\n\
\x20   const reach = reachOf(station);\n\
\x20   squares.crossed(station.x - reach, station.y - reach, 2 * reach, 2 * reach, true);\n\
\x20 }\n\
\x20 pen.font = '100px system-ui, sans-serif';\n\
\x20 const weightOf = ({ isInterchange, lines }) => (isInterchange ? 1000 : 0) + lines.size;\n\
\x20 return stations.filter(({ name }) => name).sort((a, b) => weightOf(b) - weightOf(a)).flatMap(station => {\n\
\x20   station.ems ??= pen.measureText(station.name).width / 100;\n\
\x20   const away = reachOf(station) + letters / 3, width = station.ems * letters, height = letters * 1.1;\n\
\x20   let best, least = most * weightOf(station);\n\
\x20   SIDES.forEach(([right, down, before, above], side) => {\n\
\x20     const [x, y] = [station.x + right * away - before * width, station.y + down * away - above * height];\n\
\x20     const place = [x, y, width, height];\n\
\x20     const over = squares.crossed(...place) * squares.side / width + side / 20;\n\
\x20     if (over < least) [best, least] = [place, over];\n\
\x20   });\n\
\x20   if (best) squares.crossed(...best, true);\n\
\x20   return best ? [{ station, x: best[0], y: best[1] + letters * .88 }] : [];\n\
\x20 });\n\
}\n\
\n\
/* Where a station's marker lies: over the feet of its lines, each as far from its middle as its line is. */\n\
const feetOf = ({ x, y, feet }, spread) => feet.map(([right, down]) => [x + right * spread, y + down * spread]);\n\
const circleAt = ([x, y], r) => `M${x - r} ${y}a${r} ${r} 0 1 0 ${2 * r} 0a${r} ${r} 0 1 0 ${-2 * r} 0z`;\n\
const rounded = places => 'M' + places.map(place => place.map(Math.round).join(' ')).join('L');\n\
\n\
/* A way as it is drawn, its places to a part of a unit. A bend begins at most half way to the corner before it, and ends\n\
\x20  at most half way to that behind it. */\n\
function textOf({ centre, shift, bends }, spread, parts) {\n\
\x20 const to = value => Math.round(value * parts) / parts;\n\
\x20 const at = centre.map((value, i) => to(value + shift[i] * spread));\n\
\x20 if (!bends) return `M${at}`;\n\
\x20 const corner = i => at.slice(2 * i, 2 * i + 2), last = at.length / 2 - 1;\n\
\x20 const towards = ([x, y], [right, down], away) => {\n\
\x20   const part = Math.min(.5, away / (Math.hypot(right - x, down - y) || 1));\n\
\x20   return [to(x + (right - x) * part), to(y + (down - y) * part)];\n\
\x20 };\n\
\x20 let text = `M${corner(0)}`;\n\
\x20 for (let i = 1; i < last; i++) {\n\
\x20   const [before, here, behind] = [i - 1, i, i + 1].map(corner), away = (bends[i] || 0) * spread;\n\
\x20   text += away > 0 ? `L${towards(here, before, away)}Q${here},${towards(here, behind, away)}` : `L${here}`;\n\
\x20 }\n\
\x20 return `${text}L${corner(last)}`;\n\
}\n\
\n\
/* Lines and stations as shapes, with names where there is room. */\n\
class Layer {\n\
\x20 constructor(root, { left, top, width, height, parts }) {\n\
\x20   this.parts = parts;\n\
\x20   root.setAttribute('viewBox', `${left} ${top} ${width} ${height}`);\n\
\x20   [this.edges, this.routes, this.markers, this.names] = root.children;\n\
\x20   this.show([], []);\n\
\x20 }\n\
\n\
\x20 show(lines, stations) { Object.assign(this, { lines, stations, spread: 0 }); }\n\
\n\
\x20 draw(look, part) {\n\
\x20   const { edges, routes, markers, names, radii } = this;\n\
\x20   if (this.spread !== look.spread) { this.spreadOut(look.spread); this.draw(look, part); return; }\n\
\x20   edges.setAttribute('stroke-width', look.stroke);\n\
\x20   routes.setAttribute('stroke-width', look.stroke);\n\
\x20   routes.style.setProperty('--thin', look.thin);\n\
\x20   markers.lastElementChild.setAttribute('stroke-width', look.rim);\n\
\x20   radii.forEach((radius, i) => {\n\
\x20     markers.children[i].setAttribute('stroke-width', look.rimOf(radius));\n\
\x20     markers.children[i + radii.length].setAttribute('stroke-width', look.fillOf(radius));\n\
\x20   });\n\
\x20   names.setAttribute('font-size', look.letters);\n\
\x20   names.setAttribute('stroke-width', look.letters / 3);\n\
\x20   this.placed = placeNames(this.stations, new Squares(part, look.letters / 3, this.courses), look)\n\
\x20     .filter(({ station }) => !this.unnamed?.includes(station));\n\
\x20   names.innerHTML = this.placed.map(({ x, y }) => `<text x=\"${x}\" y=\"${y}\"/>`).join('');\n\
\x20   this.placed.forEach(({ station }, i) => { names.children[i].textContent = station.name; });\n\
\x20 }\n\
\n\
\x20 /* The ways of lines, which are thinner over an edge that is seen, the edges below all of them, and the markers: those over several feet by size, all rims below\n\
\x20    all that fills them, then the circles as one. */\n\
\x20 spreadOut(spread) {\n\
\x20   this.spread = spread;\n\
\x20   this.texts = this.lines.map(({ ways }) => ways.map(way => textOf(way, spread, this.parts)).join(''));\n\
\x20   this.courses = this.texts.map(text => new Path2D(text));\n\
\x20   this.routes.innerHTML = this.texts.map((text, i) => {\n\
\x20     const { colour, edge } = this.lines[i];\n\
\x20     return `<path class=\"${edge ? `thin-${edge.paper}` : ''}\" color=\"${colour}\" d=\"${text}\"/>`;\n\
\x20   }).join('');\n\
\x20   this.edges.innerHTML = this.texts.map((text, i) => {\n\
\x20     const { edge } = this.lines[i];\n\
\x20     return edge ? `<path class=\"${edge.paper}\" color=\"${edge.colour}\" d=\"${text}\"/>` : '';\n\
\x20   }).join('');\n\
\x20   const wide = this.stations.filter(({ feet }) => feet.length > 1);\n\
\x20   this.radii = [...new Set(wide.map(({ radius }) => radius))];\n\
\x20   this.marks = this.radii.map(wanted => wide.flatMap(station => (\n\
\x20     station.radius === wanted ? rounded(feetOf(station, spread)) : []\n\
\x20   )).join(''));\n\
\x20   this.circles = this.stations.flatMap(station => (\n\
\x20     station.feet.length > 1 ? [] : circleAt(feetOf(station, spread)[0], station.radius * spread)\n\
\x20   )).join('');\n\
\x20   this.markers.innerHTML = ['rim', 'fill'].map(kind => (\n\
\x20     this.marks.map(text => `<path class=\"${kind}\" d=\"${text}\"/>`).join('')\n\
\x20   )).join('') + `<path class=\"circle\" d=\"${this.circles}\"/>`;\n\
\x20 }\n\
}\n\
\n\
/* The map in its frame: its place and scale (pixels a unit), now and at rest; what it aims at stays in sight where the\n\
\x20  frame changes. */\n\
class View {\n\
\x20 constructor(frame, plane, map) {\n\
\x20   Object.assign(this, { frame, plane, map, isLarge: map.lines.flatMap(line => line.ways).length > 3000 });\n\
\x20   this.layers = [...plane.children].map(root => new Layer(root, map));\n\
\x20   this.layers[0].show(map.lines, map.stations);\n\
\x20   this.aim = () => this.whole();\n\
\x20   this.refit();\n\
\x20   new ResizeObserver(() => this.refit()).observe(frame);\n\
\x20 }\n\
\n\
\x20 whole(box = this.map, most = Infinity) {\n\
\x20   const { width, height, map } = this, room = width - Math.min(80, width * .12);\n\
\x20   const scale = Math.min(room / box.width, height / box.height, most);\n\
\x20   return {\n\
\x20     scale, x: (width - box.width * scale) / 2 - (box.left - map.left) * scale,\n\
\x20     y: (height - box.height * scale) / 2 - (box.top - map.top) * scale,\n\
\x20   };\n\
\x20 }\n\
\n\
\x20 /* What is aimed at is shown again in a frame of another size; else what was in the middle stays there. */\n\
\x20 refit() {\n\
\x20   const { clientWidth: width, clientHeight: height } = this.frame;\n\
\x20   const isSame = width === this.width && height === this.height;\n\
\x20   if (!width || !height || isSame || this.isPrinting) return;\n\
\x20   const right = (width - this.width) / 2, down = (height - this.height) / 2;\n\
\x20   Object.assign(this, { width, height });\n\
\x20   this.base ??= this.whole().scale;\n\
\x20   for (const { style } of this.plane.children) style.width = `${this.map.width * this.base}px`;\n\
\x20   this.go(this.aim?.() || { scale: this.rest.scale, x: this.rest.x + right, y: this.rest.y + down }, true);\n\
\x20 }\n\
\n\
\x20 /* Lines are neither too thin nor too fat, and bundles cover nothing beside them. A line with an edge is as wide with it\n\
\x20    as others are without. */\n\
\x20 lookAt(scale) {\n\
\x20   const { step, widest } = this.map, room = Math.max(1, Math.min(5, 11 / widest * (step / APART)));\n\
\x20   const wanted = Math.max(3.6, Math.min(STROKE * scale, 10)) / (STROKE * scale);\n\
\x20   const spread = Number(Math.min(wanted, room).toPrecision(this.isLarge ? 1 : 3));\n\
\x20   const stroke = Math.max(STROKE * spread, 2.2 / scale), rim = Math.max(4 * spread, 1 / scale);\n\
\x20   const rimOf = radius => 2 * spread * radius + rim;\n\
\x20   return {\n\
\x20     spread, stroke, rim, thin: stroke - Math.min(stroke * .45, Math.max(3 * spread, 1.4 / scale)),\n\
\x20     rimOf, fillOf: radius => Math.max(0, rimOf(radius) - 2 * rim), reachOf: ({ reach }) => rimOf(reach) / 2,\n\
\x20     letters: Math.max(12 / scale, Math.min(20, 16 / scale)), most: scale < 2 * this.whole().scale ? .7 : 9,\n\
\x20   };\n\
\x20 }\n\
\n\
\x20 /* Glides there; at once where it is held or motion isn't wanted. */\n\
\x20 go({ scale, x, y }, isHeld = matchMedia('(prefers-reduced-motion: reduce)').matches) {\n\
\x20   const within = (value, frame, size) => Math.max(frame * .3 - size * scale, Math.min(value, frame * .7));\n\
\x20   this.rest = { scale, x: within(x, this.width, this.map.width), y: within(y, this.height, this.map.height) };\n\
\x20   if (isHeld) this.now = this.rest;\n\
\x20   this.asked ||= requestAnimationFrame(now => this.step(now));\n\
\x20 }\n\
\n\
\x20 show(aim = () => this.whole(), isHeld) {\n\
\x20   this.aim = aim;\n\
\x20   this.go(aim(), isHeld);\n\
\x20 }\n\
\n\
\x20 move(right, down, isHeld) {\n\
\x20   const { scale, x, y } = this.rest;\n\
\x20   this.aim = null;\n\
\x20   this.go({ scale, x: x + right, y: y + down }, isHeld);\n\
\x20 }\n\
\n\
\x20 zoom(factor, x = this.width / 2, y = this.height / 2, isHeld) {\n\
\x20   const { rest } = this, least = this.whole().scale * .8;\n\
\x20   const scale = Math.max(least, Math.min(rest.scale * factor, Math.max(2.5, 2 * least))), grown = scale / rest.scale;\n\
\x20   this.aim = null;\n\
\x20   this.go({ scale, x: x - (x - rest.x) * grown, y: y - (y - rest.y) * grown }, isHeld);\n\
\x20 }\n\
\n\
\x20 /* A scale at which a step of the grid is well seen, or this one where it is larger. */\n\
\x20 near() { return Math.max(this.rest.scale, Math.min(60 / this.map.step, 6 * this.whole().scale)); }\n\
\n\
\x20 /* Shows a station in the middle; a line, where not all of it is in sight, as large as it fits. */\n\
\x20 seek(thing, isHeld) {\n\
\x20   const near = this.near();\n\
\x20   if (thing.kind === 'station') {\n\
\x20     this.show(() => this.whole({ left: thing.x, top: thing.y, width: 0, height: 0 }, near), isHeld);\n\
\x20     return;\n\
\x20   }\n\
\x20   const box = boxOf(thing.ways.map(({ centre }) => centre)), { map, rest: { x, y, scale } } = this;\n\
\x20   const left = x + (box.left - map.left) * scale, top = y + (box.top - map.top) * scale;\n\
\x20   const right = left + box.width * scale, bottom = top + box.height * scale;\n\
\x20   const isSeen = left >= 0 && top >= 0 && right <= this.width && bottom <= this.height;\n\
\x20   if (!isSeen) this.show(() => this.whole(box, near), isHeld);\n\
\x20 }\n\
\n\
\x20 /* Lifts a line with its stations, or a station with its lines, out of a fading map. */\n\
\x20 lift(thing) {\n\
\x20   const things = thing ? [thing] : [];\n\
\x20   this.lifted = thing;\n\
\x20   this.plane.classList.toggle('dim', Boolean(thing));\n\
\x20   this.layers[1].show([...thing?.lines || things], this.layers[0].unnamed = thing?.stations || things);\n\
\x20   this.settle();\n\
\x20 }\n\
\n\
\x20 /* A small map is drawn in each frame; a large one once it rests. */\n\
\x20 step(time) {\n\
\x20   const { now, rest } = this, part = 1 - Math.exp(((this.time || time - 16) - time) / 70);\n\
\x20   const isThere = Math.abs(rest.scale / now.scale - 1) < .001 && Math.hypot(rest.x - now.x, rest.y - now.y) < .5;\n\
\x20   const between = key => now[key] + (rest[key] - now[key]) * part;\n\
\x20   this.now = isThere ? rest : { scale: between('scale'), x: between('x'), y: between('y') };\n\
\x20   this.plane.style.transform = `translate(${this.now.x}px, ${this.now.y}px) scale(${this.now.scale / this.base})`;\n\
\x20   this.time = isThere ? 0 : time;\n\
\x20   this.asked = isThere ? 0 : requestAnimationFrame(now => this.step(now));\n\
\x20   clearTimeout(this.settling);\n\
\x20   this.plane.classList.toggle('moving', this.isLarge);\n\
\x20   if (this.isLarge) this.settling = setTimeout(() => this.settle(), 150);\n\
\x20   else this.settle();\n\
\x20 }\n\
\n\
\x20 /* Draws all for a scale, with names half a frame beyond what is seen. */\n\
\x20 settle({ scale, x, y } = this.now, width = this.width / scale, height = this.height / scale) {\n\
\x20   const { left, top } = this.map, look = this.lookAt(scale), more = look.most > 1 ? .5 : 0, whole = 1 + 2 * more;\n\
\x20   const part = {\n\
\x20     left: left - x / scale - more * width, top: top - y / scale - more * height,\n\
\x20     width: whole * width, height: whole * height,\n\
\x20   };\n\
\x20   for (const layer of this.layers) layer.draw(look, part);\n\
\x20   this.look = look;\n\
\x20   this.plane.classList.remove('moving');\n\
\x20 }\n\
\n\
\x20 /* The station or line near a place. */\n\
\x20 at(right, down) {\n\
\x20   const { now, map } = this, { spread, reachOf, rimOf, stroke } = this.lookAt(now.scale), more = 4 / now.scale;\n\
\x20   const x = (right - now.x) / now.scale + map.left, y = (down - now.y) / now.scale + map.top;\n\
\x20   const isOn = (path, width) => {\n\
\x20     pen.lineWidth = width;\n\
\x20     return pen.isPointInStroke(path, x, y);\n\
\x20   };\n\
\x20   const station = map.stations.find(one => Math.hypot(one.x - x, one.y - y) < reachOf(one) + more\n\
\x20     && isOn(new Path2D(`${rounded(feetOf(one, spread))}h.01`), rimOf(one.radius) + 2 * more));\n\
\x20   const lineWithin = width => map.lines.find((_, i) => isOn(this.layers[0].courses[i], width));\n\
\x20   return station || lineWithin(stroke) || lineWithin(stroke + 12 / now.scale);\n\
\x20 }\n\
}\n\
\n\
/* The element of a line's colour. */\n\
const swatchOf = ({ colour, edge }) => (\n\
\x20 make('i', { style: `color: ${colour}; --edge: ${edge?.colour}`, className: edge?.paper || '' })\n\
);\n\
\n\
/* A list of lines and stations, a button each: a line with its colour, a station with its lines but one, in words and\n\
\x20  colours. Arrow keys, Home and End go through it. */\n\
class List {\n\
\x20 constructor(root, { choose, point }) {\n\
\x20   this.root = root;\n\
\x20   const thingAt = ({ target }) => target.closest('button')?.thing;\n\
\x20   on(root, 'click', event => thingAt(event) && choose(thingAt(event)));\n\
\x20   for (const name of ['pointerover', 'focusin']) on(root, name, event => point(thingAt(event)));\n\
\x20   for (const name of ['pointerleave', 'focusout']) on(root, name, () => point());\n\
\x20   on(root, 'keydown', event => {\n\
\x20     const buttons = this.buttons(), next = stepBy(event.key, buttons.indexOf(event.target), buttons.length);\n\
\x20     if (next < 0) return;\n\
\x20     stop(event);\n\
\x20     buttons[next].focus();\n\
\x20   });\n\
\x20 }\n\
\n\
\x20 buttons() { return [...this.root.querySelectorAll('button')]; }\n\
\n\
\x20 show(things, but) {\n\
\x20   this.root.replaceChildren(...things.map(thing => make('li', {}, this.button(thing, but))));\n\
\x20 }\n\
\n\
\x20 button(thing, but) {\n\
\x20   const about = { thing, type: 'button' }, name = make('bdi', { textContent: titleOf(thing) });\n\
\x20   if (thing.kind === 'line') {\n\
\x20     return make('button', about, swatchOf(thing), name, ...thing.word ? [' ', make('small', {}, thing.word)] : []);\n\
\x20   }\n\
\x20   const near = nearOf(thing), lines = byName(thing.lines).filter(line => line !== but);\n\
\x20   const count = lines.length + (near ? 1 : 0);\n\
\x20   const words = lines.map((line, i) => make('span', {}, swatchOf(line), titleOf(line), i + 1 < count ? ', ' : ''));\n\
\x20   return make('button', about, name, ...count > 0 ? [' ', make('small', {}, ...words, near)] : []);\n\
\x20 }\n\
}\n\
\n\
/* Where a key leads from a place of a list of so many, -1 being none; -1 where the key is not for lists. */\n\
function stepBy(key, i, length) {\n\
\x20 if (length === 0) return -1;\n\
\x20 const before = (Math.max(i, 0) + length - 1) % length;\n\
\x20 return { ArrowDown: (i + 1) % length, ArrowUp: before, Home: 0, End: length - 1 }[key] ?? -1;\n\
}\n\
\n\
const SHOWN = 20;\n\
\n\
/* The search box, and the list of what it finds. Arrow keys go through the list while the box is typed into. */\n\
class Search {\n\
\x20 constructor(map, hands) {\n\
\x20   Object.assign(this, { map, box: byId('find'), point: hands.point });\n\
\x20   this.list = new List(byId('found'), hands);\n\
\x20   on(this.box, 'input', () => this.find());\n\
\x20   on(this.box, 'keydown', event => this.press(event));\n\
\x20   on(byId('hits'), 'mousedown', event => event.preventDefault());\n\
\x20   on(byId('search'), 'submit', event => {\n\
\x20     event.preventDefault();\n\
\x20     (this.active() || this.list.buttons()[0])?.click();\n\
\x20   });\n\
\x20 }\n\
\n\
\x20 active() { return this.list.root.querySelector('[aria-selected=true]'); }\n\
\n\
\x20 ask(words = '') {\n\
\x20   this.box.value = words;\n\
\x20   this.find();\n\
\x20 }\n\
\n\
\x20 /* Names that begin so come first. */\n\
\x20 find() {\n\
\x20   const { lines, stations } = this.map, wanted = folded(this.box.value);\n\
\x20   this.things ??= [...byName(lines), ...byName(stations)].map(thing => [thing, folded(thing.name)]);\n\
\x20   const met = this.things.filter(([, name]) => wanted && name.includes(wanted));\n\
\x20   const begun = met.filter(([, name]) => name.startsWith(wanted));\n\
\x20   this.list.show([...new Set([...begun, ...met])].slice(0, SHOWN).map(([thing]) => thing));\n\
\x20   this.list.buttons().forEach((button, i) => {\n\
\x20     Object.assign(button, { id: `found-${i}`, tabIndex: -1 }).setAttribute('role', 'option');\n\
\x20     button.parentElement.setAttribute('role', 'presentation');\n\
\x20   });\n\
\x20   const told = met.length === 0 ? 'Nothing found' : met.length > SHOWN ? `${SHOWN} of ${met.length} found` : '';\n\
\x20   byId('count').textContent = told;\n\
\x20   byId('hits').hidden = !wanted;\n\
\x20   this.box.setAttribute('aria-expanded', met.length > 0);\n\
\x20   this.mark();\n\
\x20   if (wanted) byId('said').textContent = told || `${met.length} found`;\n\
\x20 }\n\
\n\
\x20 /* Marks one that was found, and points at it. */\n\
\x20 mark(next) {\n\
\x20   const before = this.active();\n\
\x20   before?.removeAttribute('aria-selected');\n\
\x20   next?.setAttribute('aria-selected', true);\n\
\x20   this.box.setAttribute('aria-activedescendant', next?.id || '');\n\
\x20   next?.scrollIntoView({ block: 'nearest' });\n\
\x20   if (before || next) this.point(next?.thing);\n\
\x20 }\n\
\n\
\x20 press(event) {\n\
\x20   if (event.isComposing) return;\n\
\x20   const buttons = this.list.buttons(), active = this.active(), isCaret = /^(Home|End)$/.test(event.key) && !active;\n\
\x20   const next = isCaret ? -1 : stepBy(event.key, buttons.indexOf(active), buttons.length);\n\
\x20   if (next >= 0) this.mark(buttons[next]);\n\
\x20   else if (event.key === 'Escape' && this.box.value) this.ask();\n\
\x20   else return;\n\
\x20   stop(event);\n\
\x20 }\n\
}\n\
\n\
/* The names of lines and stations behind # in the page's address: #line/NAME and #station/NAME, and behind it the place\n\
\x20  among those of one name, from the second on. */\n\
class Address {\n\
\x20 constructor({ lines, stations }) {\n\
\x20   this.things = new Map();\n\
\x20   this.keys = new Map();\n\
\x20   for (const group of groupsOf([...lines, ...stations], ({ kind, name }) => keyOf(kind, name, 1))) {\n\
\x20     group.sort((a, b) => collator.compare(a.word || '', b.word || ''));\n\
\x20     group.forEach((thing, i) => this.keys.set(thing, keyOf(thing.kind, thing.name, i + 1)));\n\
\x20   }\n\
\x20   for (const [thing, key] of this.keys) this.things.set(key, thing);\n\
\x20 }\n\
\n\
\x20 /* What the address names, and how: nothing where it names none. */\n\
\x20 read() {\n\
\x20   const [kind, name = '', number = '1'] = location.hash.slice(1).split('/').map(decoded);\n\
\x20   return { name, thing: this.things.get(keyOf(kind, name, Number(number))) || this.things.get(keyOf(kind, name, 1)) };\n\
\x20 }\n\
\n\
\x20 /* A step of its own on the way back. The focus stays, which an assignment to the address would take away. */\n\
\x20 write(thing) {\n\
\x20   if (this.read().thing !== thing) history.pushState(null, '', `#${this.keys.get(thing) || ''}`);\n\
\x20 }\n\
}\n\
\n\
const keyOf = (kind, name, number) => [kind, encodeURIComponent(name), ...number > 1 ? [number] : []].join('/');\n\
\n\
function decoded(text) {\n\
\x20 try { return decodeURIComponent(text); } catch { return text; }\n\
}\n\
\n\
const isNarrow = () => matchMedia('(max-width: 44rem)').matches;\n\
\n\
/* What the list of a line, or of a station, is of: a poster tells where lines call, a map only where they run. */\n\
const NOTES = {\n\
\x20 calls: { line: 'Stations where it calls', station: 'Lines that call here' },\n\
\x20 ways: {\n\
\x20   line: 'Stations on its way. It may pass some without calling.',\n\
\x20   station: 'Lines through here. A circle covers all lines of a bundle: some may pass without calling.',\n\
\x20 },\n\
};\n\
\n\
/* A search, what was chosen, the legend. */\n\
class Panel {\n\
\x20 constructor(view) {\n\
\x20   const { map } = view, choose = thing => this.choose(thing), point = thing => this.point(thing);\n\
\x20   this.view = view;\n\
\x20   tellApart(map);\n\
\x20   if (map.name) Object.assign(byId('name'), { textContent: map.name, className: 'own' });\n\
\x20   document.title = byId('name').textContent;\n\
\x20   byId('size').textContent = `Lines: ${map.lines.length}, stations: ${map.stations.length}`;\n\
\x20   this.search = new Search(map, { choose, point });\n\
\x20   this.parts = new List(byId('parts'), { choose, point });\n\
\x20   this.legend = new List(byId('lines'), { point, choose: thing => this.toggle(thing) });\n\
\x20   this.legend.show(byName(map.lines));\n\
\x20   byId('legend').open = !isNarrow();\n\
\x20   on(byId('close'), 'click', () => this.choose());\n\
\x20   this.address = new Address(map);\n\
\x20   on(window, 'hashchange', () => this.follow());\n\
\x20   this.follow(true);\n\
\x20 }\n\
\n\
\x20 /* Chooses what the address names; what is not on the map is searched for. */\n\
\x20 follow(isHeld) {\n\
\x20   const { thing, name } = this.address.read();\n\
\x20   if (thing !== this.chosen) this.choose(thing, isHeld);\n\
\x20   if (!thing && name) this.search.ask(name);\n\
\x20 }\n\
\n\
\x20 /* Chooses what is not chosen, and no more what is. */\n\
\x20 toggle(thing) { this.choose(thing === this.chosen ? undefined : thing); }\n\
\n\
\x20 /* Lifts a line while it is pointed at. */\n\
\x20 point(thing) {\n\
\x20   const line = thing?.kind === 'line' ? thing : undefined;\n\
\x20   if (this.pointed !== line) this.view.lift(line || this.chosen);\n\
\x20   this.pointed = line;\n\
\x20 }\n\
\n\
\x20 /* Chooses a line or a station, or none. */\n\
\x20 choose(thing, isHeld) {\n\
\x20   const { view, search, legend } = this, card = byId('card'), isInside = card.contains(document.activeElement);\n\
\x20   if (!isInside) this.opener = document.activeElement;\n\
\x20   this.chosen = thing;\n\
\x20   for (const button of legend.buttons()) button.setAttribute('aria-pressed', button.thing === thing);\n\
\x20   document.title = [thing && inWords(thing), byId('name').textContent].filter(Boolean).join(' - ');\n\
\x20   card.hidden = !thing;\n\
\x20   if (thing) this.tell(thing);\n\
\x20   if (thing && search.box.value) search.ask();\n\
\x20   if (thing && isNarrow()) {\n\
\x20     byId('legend').open = false;\n\
\x20     search.box.blur();\n\
\x20   }\n\
\x20   if (isInside) (thing ? byId('chosen') : isNarrow() ? view.frame : this.opener).focus();\n\
\x20   view.refit();\n\
\x20   view.lift(thing);\n\
\x20   if (thing) view.seek(thing, isHeld);\n\
\x20   this.address.write(thing);\n\
\x20 }\n\
\n\
\x20 /* The card of a line with its stations, or of a station with its lines. */\n\
\x20 tell(thing) {\n\
\x20   const isLine = thing.kind === 'line', parts = isLine ? thing.stations : byName(thing.lines);\n\
\x20   byId('chosen').textContent = titleOf(thing);\n\
\x20   byId('note').textContent = NOTES[this.view.map.tellsCalls ? 'calls' : 'ways'][thing.kind];\n\
\x20   this.parts.show(parts, isLine ? thing : undefined);\n\
\x20   byId('said').textContent = `${inWords(thing)}. ${isLine ? 'Stations' : 'Lines'}: ${parts.length}`;\n\
\x20 }\n\
}\n\
\n\
const PAPER = '#ffffff', INK = '#16181d', LONGEST = 4096;\n\
\n\
/* What is seen; or the whole map, where all of it is, at 80 pixels a step of its grid (from 1200 to 4096 in all). */\n\
function frameOf(view) {\n\
\x20 const { map, now, width, height } = view, longest = Math.max(map.width, map.height);\n\
\x20 if (Math.abs(now.scale / view.whole().scale - 1) < .01) {\n\
\x20   const scale = Math.max(1200 / longest, Math.min(80 / map.step, LONGEST / longest));\n\
\x20   return { ...map, scale, settled: { scale, x: 0, y: 0 } };\n\
\x20 }\n\
\x20 return {\n\
\x20   left: map.left - now.x / now.scale, top: map.top - now.y / now.scale,\n\
\x20   width: width / now.scale, height: height / now.scale, scale: now.scale, settled: now,\n\
\x20 };\n\
}\n\
\n\
/* All that is to be drawn, in order, on white paper: strokes, names, and a veil over the map below what is lifted. */\n\
function* shapesOf({ layers, look, lifted }) {\n\
\x20 for (const layer of lifted ? layers : [layers[0]]) {\n\
\x20   if (layer !== layers[0]) yield { veil: .8 };\n\
\x20   for (const [i, { edge }] of layer.lines.entries()) {\n\
\x20     if (edge?.paper === 'on-white') yield { d: layer.texts[i], colour: edge.colour, width: look.stroke };\n\
\x20   }\n\
\x20   for (const [i, { colour, edge }] of layer.lines.entries()) {\n\
\x20     yield { d: layer.texts[i], colour, width: edge?.paper === 'on-white' ? look.thin : look.stroke };\n\
\x20   }\n\
\x20   for (const [colour, widthOf] of [[INK, look.rimOf], [PAPER, look.fillOf]]) {\n\
\x20     for (const [i, radius] of layer.radii.entries()) yield { d: layer.marks[i], colour, width: widthOf(radius) };\n\
\x20   }\n\
\x20   if (layer.circles) yield { d: layer.circles, fill: PAPER, colour: INK, width: look.rim };\n\
\x20   const names = layer.placed.map(({ station, x, y }) => ({ name: station.name, x, y }));\n\
\x20   for (const name of names) yield { ...name, colour: PAPER, width: look.letters / 3 };\n\
\x20   for (const name of names) yield { ...name, colour: INK };\n\
\x20 }\n\
}\n\
\n\
const escaped = text => text.replace(/[^\\t\\n\\r -\\ud7ff\\ue000-\\ufffd\\u{10000}-\\u{10ffff}]/gu, '\\ufffd')\n\
\x20 .replace(/[&<>\"]/g, sign => `&#${sign.charCodeAt()};`);\n\
\n\
function asSvg(shapes, { left, top, width, height, scale }, { letters }, title) {\n\
\x20 const box = `x=\"${left}\" y=\"${top}\" width=\"${width}\" height=\"${height}\" fill=\"${PAPER}\"`;\n\
\x20 const rows = [...shapes].map(({ d, fill = 'none', name, veil, x, y, colour, width: wide }) => {\n\
\x20   const stroke = wide === undefined ? '' : ` stroke=\"${colour}\" stroke-width=\"${wide}\"`;\n\
\x20   if (d) return `<path d=\"${d}\" fill=\"${fill}\"${stroke}/>`;\n\
\x20   if (veil) return `<rect ${box} fill-opacity=\"${veil}\"/>`;\n\
\x20   return `<text x=\"${x}\" y=\"${y}\" fill=\"${colour}\"${stroke}>${escaped(name)}</text>`;\n\
\x20 });\n\
\x20 const size = `width=\"${Math.round(width * scale)}\" height=\"${Math.round(height * scale)}\"`;\n\
\x20 return [\n\
\x20   `<svg xmlns=\"http://www.w3.org/2000/svg\" viewBox=\"${left} ${top} ${width} ${height}\" ${size} `\n\
\x20   + `font-family=\"system-ui, sans-serif\" font-size=\"${letters}\" stroke-linecap=\"round\" stroke-linejoin=\"round\">`,\n\
\x20   `<title>${escaped(title)}</title>`, `<rect ${box}/>`, ...rows, '</svg>', '',\n\
\x20 ].join('\\n');\n\
}\n\
\n\
function asPng(shapes, { left, top, width, height, scale }, { letters }) {\n\
\x20 const most = LONGEST / (Math.max(width, height) * scale), fine = scale * Math.min(2, most);\n\
\x20 const canvas = new OffscreenCanvas(Math.ceil(width * fine), Math.ceil(height * fine)), ink = canvas.getContext('2d');\n\
\x20 const cover = globalAlpha => {\n\
\x20   Object.assign(ink, { fillStyle: PAPER, globalAlpha });\n\
\x20   ink.fillRect(left, top, width, height);\n\
\x20 };\n\
\x20 ink.setTransform(fine, 0, 0, fine, -left * fine, -top * fine);\n\
\x20 cover(1);\n\
\x20 for (const { d, fill, name, veil, x, y, colour, width: wide } of shapes) {\n\
\x20   Object.assign(ink, {\n\
\x20     globalAlpha: 1, strokeStyle: colour, fillStyle: fill || colour, lineWidth: wide || 1,\n\
\x20     lineCap: 'round', lineJoin: 'round', font: `${letters}px system-ui, sans-serif`,\n\
\x20   });\n\
\x20   if (fill) ink.fill(new Path2D(d));\n\
\x20   if (d) ink.stroke(new Path2D(d));\n\
\x20   else if (veil) cover(veil);\n\
\x20   else if (wide) ink.strokeText(name, x, y);\n\
\x20   else ink.fillText(name, x, y);\n\
\x20 }\n\
\x20 return canvas.convertToBlob({ type: 'image/png' });\n\
}\n\
\n\
/* Saves a picture under the page's title. */\n\
async function savePicture(view, kind) {\n\
\x20 const { title } = document, frame = frameOf(view);\n\
\x20 view.settle(frame.settled, frame.width, frame.height);\n\
\x20 const shapes = [...shapesOf(view)], { look } = view;\n\
\x20 view.settle();\n\
\x20 const blob = kind === 'png' ? await asPng(shapes, frame, look)\n\
\x20   : new Blob([asSvg(shapes, frame, look, title)], { type: 'image/svg+xml' });\n\
\x20 const link = make('a', { href: URL.createObjectURL(blob) });\n\
\x20 link.download = `${title.replace(/[\\\\/:*?\"<>|]+/g, ' ')}.${kind}`;\n\
\x20 link.click();\n\
\x20 setTimeout(() => URL.revokeObjectURL(link.href), 60000);\n\
}\n\
\n\
/* Pointer, wheel and keys. */\n\
function takeHold(view, panel) {\n\
\x20 const frame = byId('view'), glass = byId('glass'), tip = byId('tip'), fingers = new Map();\n\
\x20 let travelled = 0, asked = 0;\n\
\n\
\x20 function pointAt(thing, x, y) {\n\
\x20   tip.hidden = !thing;\n\
\x20   tip.textContent = thing ? inWords(thing) : '';\n\
\x20   tip.style.transform = `translate(${x}px, ${y}px) translate(${x > view.width / 2 ? -105 : 5}%, .8rem)`;\n\
\x20   panel.point(thing);\n\
\x20 }\n\
\n\
\x20 on(glass, 'pointerdown', ({ button, pointerId, offsetX, offsetY }) => {\n\
\x20   if (button !== 0) return;\n\
\x20   frame.focus({ focusVisible: false });\n\
\x20   glass.setPointerCapture(pointerId);\n\
\x20   if (fingers.size === 0) travelled = 0;\n\
\x20   fingers.set(pointerId, [offsetX, offsetY]);\n\
\x20 });\n\
\x20 on(glass, 'pointermove', ({ pointerId, offsetX: x, offsetY: y }) => {\n\
\x20   const from = fingers.get(pointerId), other = [...fingers.values()].find(finger => finger !== from);\n\
\x20   cancelAnimationFrame(asked);\n\
\x20   if (!from) { asked = requestAnimationFrame(() => pointAt(view.at(x, y), x, y)); return; }\n\
\x20   const right = x - from[0], down = y - from[1];\n\
\x20   fingers.set(pointerId, [x, y]);\n\
\x20   travelled += Math.hypot(right, down);\n\
\x20   if (travelled < 4) return;\n\
\x20   pointAt();\n\
\x20   if (!other) { view.move(right, down, true); return; }\n\
\x20   const span = ([left, top]) => Math.hypot(left - other[0], top - other[1]) || 1;\n\
\x20   view.move(right / 2, down / 2, true);\n\
\x20   view.zoom(span([x, y]) / span(from), (x + other[0]) / 2, (y + other[1]) / 2, true);\n\
\x20 });\n\
\x20 on(glass, 'pointerup', ({ pointerId, offsetX, offsetY }) => {\n\
\x20   if (fingers.delete(pointerId) && travelled < 4) panel.toggle(view.at(offsetX, offsetY));\n\
\x20 });\n\
\x20 on(glass, 'pointerleave', ({ pointerId }) => {\n\
\x20   fingers.delete(pointerId);\n\
\x20   cancelAnimationFrame(asked);\n\
\x20   pointAt();\n\
\x20 });\n\
\x20 on(glass, 'wheel', event => {\n\
\x20   event.preventDefault();\n\
\x20   const pixels = Math.max(-240, Math.min(event.deltaY, 240));\n\
\x20   view.zoom(Math.exp(-pixels * (event.ctrlKey ? .01 : .002)), event.offsetX, event.offsetY);\n\
\x20 });\n\
\n\
\x20 const acts = { closer: () => view.zoom(1.5), farther: () => view.zoom(1 / 1.5), whole: () => view.show() };\n\
\x20 for (const id in acts) on(byId(id), 'click', acts[id]);\n\
\x20 const keys = {\n\
\x20   '+': acts.closer, '-': acts.farther, 0: acts.whole, Escape: () => panel.choose(),\n\
\x20   ArrowLeft: () => view.move(120, 0), ArrowRight: () => view.move(-120, 0),\n\
\x20   ArrowUp: () => view.move(0, 120), ArrowDown: () => view.move(0, -120),\n\
\x20 };\n\
\x20 on(window, 'keydown', event => {\n\
\x20   const { key, target } = event, isTyped = target.id === 'find' && key !== 'Escape';\n\
\x20   if (isTyped || event.ctrlKey || event.metaKey || event.altKey || !keys[key]) return;\n\
\x20   event.preventDefault();\n\
\x20   keys[key]();\n\
\x20 });\n\
\x20 for (const kind of ['png', 'svg']) on(byId(kind), 'click', () => savePicture(view, kind));\n\
\n\
\x20 const legend = byId('legend'), before = {};\n\
\x20 on(window, 'beforeprint', () => {\n\
\x20   Object.assign(before, { isOpen: legend.open, lifted: view.lifted });\n\
\x20   view.isPrinting = legend.open = true;\n\
\x20   view.lift();\n\
\x20   const { width, height } = view.map, scale = Math.min(1000 / width, 620 / height);\n\
\x20   view.settle({ scale, x: 0, y: 0 }, width, height);\n\
\x20 });\n\
\x20 on(window, 'afterprint', () => {\n\
\x20   view.isPrinting = false;\n\
\x20   legend.open = before.isOpen;\n\
\x20   view.lift(before.lifted);\n\
\x20 });\n\
}\n\
\n\
/* What follows this script is the picture, as text. */\n\
on(document, 'DOMContentLoaded', () => {\n\
\x20 const source = byId('picture'), map = readPicture(source.textContent);\n\
\x20 source.remove();\n\
\x20 byId('trouble').hidden = map !== null;\n\
\x20 byId('panel').hidden = map === null;\n\
\x20 if (!map) return;\n\
\x20 const view = new View(byId('view'), byId('plane'), map);\n\
\x20 takeHold(view, new Panel(view));\n\
});\n\
</script>\n\
<plaintext id=\"picture\" hidden>";
