//! What every picture has.

/// How things look, by their class.
pub(crate) const STYLE: &str = "<style>text{font:11px Helvetica,Arial,sans-serif;fill:#222}\
.page{fill:#fff}.life{stroke:#b4b4b4}.number{fill:#999;text-anchor:end}.note{fill:#444}\
.head{fill:#edf2f8;stroke:#8fa5bd}.name{font-weight:bold;font-size:13px;text-anchor:middle}\
.sent,.late,.again{stroke:#1d4f80;fill:none;marker-end:url(#tip)}.late{stroke-width:2.6}\
.again{stroke-dasharray:9 3 2 3}.lost{stroke:#b3261e;fill:none;stroke-dasharray:5 4}\
.cross{stroke:#b3261e;stroke-width:2.4;fill:none}\
.right,.left{fill:#1d4f80;paint-order:stroke;stroke:#fff;stroke-width:3px}.right{text-anchor:end}\
.call text{font:11px DejaVu Sans Mono,Menlo,Consolas,monospace;text-anchor:middle}\
.call rect{fill:#fff;stroke:#888}.begun rect{fill:#fff3c9;stroke:#b08000}.decided rect{fill:#f1f1f1}\
.cached rect{fill:#e2f3e2;stroke:#2b7a30}.cached text{fill:#1c5c22;font-style:italic}\
.dot{fill:#111}.own{fill:#fff;stroke:#111}.hit{fill:#2b7a30}.box{fill:#fbd38a;stroke:#555}.boxed{text-anchor:middle}\
.wait{fill:#ffe189;stroke:#b08000}\
.held{fill:#fff;stroke:#2a6ca8}.update{fill:#8cc0ec}.status{stroke-dasharray:2 2}\
.lock{stroke:#a3561a}.lock.update{fill:#f7b267}.opening{stroke:#7a3a94;stroke-dasharray:6 2}</style>\n";

/// The tip of an arrow.
pub(crate) const TIP: &str =
    "<defs><marker id=\"tip\" viewBox=\"0 0 10 8\" refX=\"10\" refY=\"4\" markerWidth=\"10\" \
markerHeight=\"8\" markerUnits=\"userSpaceOnUse\" orient=\"auto\">\
<path d=\"M0 0L10 4L0 8z\" fill=\"#1d4f80\"/></marker></defs>\n";

/// What the forms mean.
pub(crate) const LEGEND: &str = "<path class=\"sent\" d=\"M0 0h36\"/>\
<text class=\"note\" x=\"44\" y=\"4\">message</text>\
<path class=\"late\" d=\"M180 0h36\"/><text class=\"note\" x=\"224\" y=\"4\">taken late</text>\
<path class=\"again\" d=\"M360 0h36\"/><text class=\"note\" x=\"404\" y=\"4\">taken once more</text>\
<path class=\"lost\" d=\"M540 0h31\"/><path class=\"cross\" d=\"M566 -5l10 10m0 -10l-10 10\"/>\
<text class=\"note\" x=\"584\" y=\"4\">lost</text>\n\
<path class=\"dot\" d=\"M14 18h8v8h-8z\"/><text class=\"note\" x=\"44\" y=\"26\">line of the script</text>\
<path class=\"hit\" d=\"M198 16l6 11h-12z\"/>\
<text class=\"note\" x=\"224\" y=\"26\">answered from cache</text>\
<path class=\"own\" d=\"M378 17l5 5l-5 5l-5 -5z\"/>\
<text class=\"note\" x=\"404\" y=\"26\">done unasked</text>\
<rect class=\"wait\" x=\"554\" y=\"15\" width=\"8\" height=\"14\"/>\
<text class=\"note\" x=\"584\" y=\"26\">a call waits</text>\n\
<rect class=\"held bytes update\" x=\"15\" y=\"37\" width=\"6\" height=\"14\"/>\
<text class=\"note\" x=\"44\" y=\"48\">token to change</text>\
<rect class=\"held bytes\" x=\"195\" y=\"37\" width=\"6\" height=\"14\"/>\
<text class=\"note\" x=\"224\" y=\"48\">token to read bytes</text>\
<rect class=\"held status\" x=\"375\" y=\"37\" width=\"6\" height=\"14\"/>\
<text class=\"note\" x=\"404\" y=\"48\">token to read the status</text>\
<rect class=\"held lock\" x=\"550\" y=\"37\" width=\"6\" height=\"14\"/>\
<rect class=\"held opening\" x=\"560\" y=\"37\" width=\"6\" height=\"14\"/>\
<text class=\"note\" x=\"584\" y=\"48\">lock, open file</text>\n";
