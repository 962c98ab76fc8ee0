//! How a drawing looks.

/// The style sheet, with the patterns and the tip of arrows that it names.
pub const STYLE: &str = "<style>
:root{color-scheme:light dark;--page:#fff;--ink:#1b1f24;--soft:#57606a;--band:#eef1f4;
--edge:#b6bec7;--good:#1a7f37;--live:#0969da;--bad:#cf222e;--lost:#8250df}
@media (prefers-color-scheme:dark){:root{--page:#0d1117;--ink:#e6edf3;--soft:#9da7b3;
--band:#1b222b;--edge:#4b5563;--good:#3fb950;--live:#58a6ff;--bad:#ff7b72;--lost:#d2a8ff}}
svg{background:var(--page)}
text{font:12px sans-serif;fill:var(--ink)}
.window,.heading,.guardian{font-weight:600}
.heading{font-size:16px}
.key,.axis{fill:var(--soft)}
.axis{font-size:10px;text-anchor:middle}
.label{font-size:11px;paint-order:stroke;stroke:var(--page);stroke-width:3px}
.lane{fill:var(--band)}
.spine{stroke:var(--edge);stroke-width:1.5}
.gap{fill:var(--page);fill-opacity:.8;stroke:var(--soft);stroke-dasharray:2 3}
.bar{stroke-width:1.5;fill-opacity:.22}
.tail{stroke-width:2}
.tick{stroke:var(--ink);stroke-width:3}
.arrow{stroke-width:1.5;marker-end:url(#tip)}
.open{fill:none;stroke:var(--live)}
.committed{fill:var(--good);stroke:var(--good)}
.aborted{fill:url(#hatched);fill-opacity:1;stroke:var(--bad)}
.orphan{fill:url(#dotted);fill-opacity:1;stroke:var(--lost);stroke-dasharray:5 3}
.tail.aborted{stroke-dasharray:2 2}
.call{fill:var(--live);stroke:var(--live)}
.prepare{fill:var(--soft);stroke:var(--soft);stroke-dasharray:6 3}
.yes{fill:var(--good);stroke:var(--good)}
.no{fill:var(--bad);stroke:var(--bad);stroke-dasharray:3 2}
.tell{fill:var(--ink);stroke:var(--ink);stroke-dasharray:1 3}
.hatch{stroke:var(--bad);stroke-width:1.5}
.dot{fill:var(--lost)}
.tip{fill:var(--ink)}
</style>
<defs>
<pattern id=\"hatched\" width=\"6\" height=\"6\" patternUnits=\"userSpaceOnUse\" \
patternTransform=\"rotate(45)\"><line class=\"hatch\" x1=\"0\" y1=\"0\" x2=\"0\" y2=\"6\"/>\
</pattern>
<pattern id=\"dotted\" width=\"6\" height=\"6\" patternUnits=\"userSpaceOnUse\">\
<circle class=\"dot\" cx=\"3\" cy=\"3\" r=\"1\"/></pattern>
<marker id=\"tip\" viewBox=\"0 0 8 8\" refX=\"7\" refY=\"4\" markerWidth=\"5\" markerHeight=\"5\" \
orient=\"auto\"><path class=\"tip\" d=\"M0 0 8 4 0 8Z\"/></marker>
</defs>
";
