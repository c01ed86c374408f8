//! A picture of one module, whose places follow from the rules of `docs/SPECIFICATION.md`.

/// The picture of `auth [success=ok default=5] a.so`.
pub(crate) const PICTURE: &[u8] =
    b"<svg xmlns=\"http://www.w3.org/2000/svg\" role=\"img\" aria-labelledby=\"title desc\" width=\"620\" height=\"269\" viewBox=\"0 0 620 269\">
<title id=\"title\">login auth</title>
<desc id=\"desc\">1 a.so undef perm_denied: success to success.
1 a.so undef perm_denied: but:success to perm_denied.
</desc>
<style>
text{font-family:sans-serif;font-size:12px;fill:#111}.strong{font-weight:bold}.weak{fill:#444}.edge text{font-size:11px}\
    .paper{fill:#fff}.lane{stroke:#bbb}.guide{stroke:#ccc;stroke-dasharray:2 3}.bracket{fill:none;stroke:#444}
.edge path{fill:none;stroke:#111;stroke-width:1.5}.undef,.negative,.success,.failure{fill:#fff;stroke:#111;stroke-width:2}\
    .positive,.arrow{fill:#111}.success{stroke-width:4}
.edge:hover path{stroke-width:3}@media (prefers-color-scheme:dark){text{fill:#eee}.weak{fill:#bbb}.paper{fill:#161616}\
    .lane{stroke:#555}.guide{stroke:#444}.bracket{stroke:#bbb}.edge path{stroke:#eee}
.undef,.negative,.success,.failure{fill:#161616;stroke:#eee}.positive,.arrow{fill:#eee}}
</style>
<rect class=\"paper\" width=\"620\" height=\"269\"/>
<text class=\"strong\" x=\"16\" y=\"26\">login auth</text>
<path class=\"lane\" d=\"M0 129H620\"/>
<text class=\"strong\" x=\"16\" y=\"147\" dy=\"4\">undef</text>
<text class=\"weak\" x=\"16\" y=\"147\" dy=\"18\">perm_denied</text>
<path class=\"lane\" d=\"M0 183H620\"/>
<text class=\"strong\" x=\"16\" y=\"201\" dy=\"4\"></text>
<text class=\"weak\" x=\"16\" y=\"201\" dy=\"18\"></text>
<g transform=\"translate(128 54)\"><title>1 [success=ok default=5] a.so</title><text class=\"strong\" x=\"-6\">1</text>\
    <text class=\"strong\" x=\"-6\" y=\"15\">a.so</text><text class=\"weak\" y=\"30\"><tspan x=\"-6\">[success=ok</tspan>\
    <tspan x=\"-6\" dy=\"15\">default=5]</tspan></text><path class=\"guide\" d=\"M0 64v119\"/></g>
<g class=\"edge\" data-from=\"n0\" data-to=\"d0\"><title>1 a.so undef perm_denied: success to success</title>\
    <path d=\"M128 147H128C139 147 139 165 150 165H199C215 165 215 201 231 201H231C238 201 238 201 245 201L245 201\"/>\
    <text x=\"150\" y=\"165\" dx=\"3\" dy=\"-3\">success</text></g>
<g class=\"edge\" data-from=\"n0\" data-to=\"d6\"><title>1 a.so undef perm_denied: but:success to perm_denied</title>\
    <path d=\"M128 147H128C139 147 139 147 150 147H199C215 147 215 147 231 147H231C238 147 238 147 245 147L245 147\"/>\
    <text x=\"150\" y=\"147\" dx=\"3\" dy=\"-3\">else</text></g>
<g id=\"n0\" class=\"undef\" transform=\"translate(128 147)\"><title>1 a.so undef perm_denied</title><circle r=\"6\"/></g>
<g id=\"d0\" transform=\"translate(245 201)\"><path class=\"arrow\" d=\"M0-1h4v-3l8 4l-8 4v-3h-4z\"/>\
    <rect class=\"success\" x=\"12\" y=\"-13\" height=\"26\" rx=\"13\" width=\"80\"/>\
    <text class=\"strong\" x=\"24\" y=\"4\">success</text></g>
<g id=\"d6\" transform=\"translate(245 147)\"><path class=\"arrow\" d=\"M0-1h4v-3l8 4l-8 4v-3h-4z\"/>\
    <rect class=\"failure\" x=\"12\" y=\"-11\" height=\"22\" width=\"112\"/>\
    <text class=\"strong\" x=\"24\" y=\"4\">perm_denied</text></g>
<path id=\"start\" class=\"arrow\" data-to=\"n0\" d=\"M128 147m-8 0l-8-4v8z\"/>
<text class=\"weak\" x=\"16\" y=\"253\">Read from left to right. A line without a word: any answer. else: every other answer.</text>
</svg>
";
