//! A picture of a row, which docs/pictures/event_cancel_told.svg is too.

use crate::rows::table_of;
use fi_explain::write_picture;
use std::alloc::Global;
use tests_rows::{event, text_of};

/// Two waits are notified; one is cancelled, and the other is never polled again.
const EVENT_CANCEL_TOLD: &str = "\
<svg xmlns=\"http://www.w3.org/2000/svg\" width=\"520\" height=\"252\">
<style>text{font:13px monospace;fill:#1f2328}line{stroke-width:2;stroke:#8c959f}.waits{stroke-width:8;stroke:#54aeff}.notified{stroke-width:8;stroke:#fb8f44}.ended{stroke-dasharray:2 4}circle{stroke-width:2;stroke:#1f2328;fill:#fff}circle.notified{stroke:#1f2328;stroke-width:2;fill:#fb8f44}circle.ready{fill:#2da44e}</style>
<rect width=\"100%\" height=\"100%\" fill=\"#fff\"/>
<title>event reset</title>
<text x=\"12\" y=\"18\">event reset</text>
<text x=\"12\" y=\"36\" xml:space=\"preserve\">no  call      answer   wakes</text>
<text x=\"288\" y=\"36\" text-anchor=\"middle\">a</text>
<text x=\"360\" y=\"36\" text-anchor=\"middle\">b</text>
<text x=\"12\" y=\"60\" xml:space=\"preserve\">2   wait a    made</text>
<line class=\"fresh\" x1=\"288\" y1=\"56\" x2=\"288\" y2=\"80\"/>
<circle class=\"made\" cx=\"288\" cy=\"56\" r=\"5\"/>
<text x=\"12\" y=\"84\" xml:space=\"preserve\">3   wait b    made</text>
<line class=\"fresh\" x1=\"288\" y1=\"80\" x2=\"288\" y2=\"104\"/>
<line class=\"fresh\" x1=\"360\" y1=\"80\" x2=\"360\" y2=\"104\"/>
<circle class=\"made\" cx=\"360\" cy=\"80\" r=\"5\"/>
<text x=\"12\" y=\"108\" xml:space=\"preserve\">4   poll a 1  pending</text>
<line class=\"waits\" x1=\"288\" y1=\"104\" x2=\"288\" y2=\"128\"/>
<line class=\"fresh\" x1=\"360\" y1=\"104\" x2=\"360\" y2=\"128\"/>
<text x=\"12\" y=\"132\" xml:space=\"preserve\">5   poll b 2  pending</text>
<line class=\"waits\" x1=\"288\" y1=\"128\" x2=\"288\" y2=\"152\"/>
<line class=\"waits\" x1=\"360\" y1=\"128\" x2=\"360\" y2=\"152\"/>
<text x=\"12\" y=\"156\" xml:space=\"preserve\">6   hold set  ok</text>
<line class=\"notified\" x1=\"288\" y1=\"152\" x2=\"288\" y2=\"176\"/>
<circle class=\"notified\" cx=\"288\" cy=\"152\" r=\"5\"/>
<line class=\"notified\" x1=\"360\" y1=\"152\" x2=\"360\" y2=\"176\"/>
<circle class=\"notified\" cx=\"360\" cy=\"152\" r=\"5\"/>
<text x=\"12\" y=\"180\" xml:space=\"preserve\">7   cancel a  ok       2</text>
<text x=\"288\" y=\"180\" text-anchor=\"middle\">×</text>
<line class=\"notified\" x1=\"360\" y1=\"176\" x2=\"360\" y2=\"200\"/>
<circle class=\"made\" cx=\"24\" cy=\"232\" r=\"5\"/>
<text x=\"36\" y=\"236\">made</text>
<line class=\"waits\" x1=\"112\" y1=\"232\" x2=\"128\" y2=\"232\"/>
<text x=\"132\" y=\"236\">waits</text>
<circle class=\"notified\" cx=\"216\" cy=\"232\" r=\"5\"/>
<text x=\"228\" y=\"236\">notified</text>
<circle class=\"ready\" cx=\"312\" cy=\"232\" r=\"5\"/>
<text x=\"324\" y=\"236\">ready</text>
<text x=\"408\" y=\"236\" text-anchor=\"middle\">×</text>
<text x=\"420\" y=\"236\">cancelled</text>
</svg>
";

// Whether this is the picture of a row.
fn is_picture(alloc: Global, row: &str, wanted: &str) -> bool {
    let Some(table) = table_of(alloc, row) else {
        return false;
    };
    let mut picture = String::new(alloc);
    write_picture(alloc, &table, &mut picture).is_ok() && picture.as_str() == wanted
}

#[test]
fn event_cancel_told(rt: HostRuntime) {
    let row = text_of(&event::ROWS, "event_cancel_told");
    assert!(rt; is_picture(rt.alloc(), row, EVENT_CANCEL_TOLD));
}
